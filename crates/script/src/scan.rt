// Where runs of bytes end, and what digits write.
ghost use Rattle.std.specs.Prelude.{◌≡◌, ◌++◌, ℕ, Bool};
ghost use Rattle.script.specs.Text.{Computes, number_of};
ghost use Rattle.std.specs.List.{take_while};

// The most digits of a number.
const DIGITS: usize = 8;

// The bytes at the front that are in a run, and those behind it.
pub(crate) fn split_run<F: Fn(u8) -> bool>(text: &[u8], in_run: F) -> (&[u8], &[u8])
    requires { F.IsAlwaysCallable in_run }
    ensures run { (p : ℕ → Bool) → Computes (F.post in_run) p →
        result.0.now ≡ take_while p text.now }
    ensures whole { text.now ≡ result.0.now ++ result.1.now }
{
    text.split_at(text.iter().take_while(|b| in_run(**b)).count())
}

// The number that 1 to 8 digits write.
pub(crate) fn read_number(text: &[u8]) -> Option<u32>
    ensures { result ≡ number_of text.now }
{
    if text.is_empty() || text.len() > DIGITS {
        return None;
    }
    let mut value: u32 = 0;
    // A try_fold is not proved: its closure has to show that each sum fits, and knows no bound on it.
    for b in text {
        value = value * 10 + char::from(*b).to_digit(10)?;
    }
    Some(value)
}
