// What a login asks for.

// The link, and the buffers and the N of its west end and its east end.
#[derive(Clone, Copy, PartialEq, Eq, Debug)]
pub struct Login {
    pub link: u32,
    pub west: u32,
    pub east: u32,
    pub west_n: u32,
    pub east_n: u32,
}
