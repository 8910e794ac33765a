// Cases of rings, channels and banks, run beside the proofs.
#![tactic(auto)]

mod rings;

use channel::Channel;
use channel::wire::Wire;
use loss::ScriptedLoss;
use loss::script::{LossEntry, LossScript};
use symbol::{Frame, Item, Mark, Note, Symbol, SymbolKind};

const F: Symbol = Symbol::Frame(Frame { number: 0 });

const R: Symbol = Symbol::RRdy;

const S: Symbol = Symbol::Mark(Mark::BbScS);

const C: Symbol = Symbol::Mark(Mark::BbScR);

fn frame(number: u32, note: Note) -> Item {
    Item {
        symbol: Symbol::Frame(Frame { number }),
        note,
    }
}

fn sound(number: u32) -> Item {
    frame(number, Note::Sound)
}

fn lost(number: u32) -> Item {
    frame(number, Note::Lost)
}

// Puts an item, lets a step pass and takes it: whether it came sound, or lost, or not at all.
fn sent<T: Channel>(channel: &mut T, symbol: Symbol) -> Option<Note> {
    let _ = channel.put(Item {
        symbol,
        note: Note::Sound,
    });
    channel.step();
    channel.take().map(|item| item.note)
}

fn lossy_wire(kind: SymbolKind, entries: &[(u32, u32)]) -> ScriptedLoss<Wire> {
    let mut script = LossScript::new();
    for &(first, count) in entries {
        let _ = script.add(LossEntry { kind, first, count });
    }
    ScriptedLoss::new(Wire::new(), script)
}

#[cfg(test)]
mod tests {
    use super::*;
    use bank::Bank;
    use bank::one::One;
    use bank::pair::Pair;
    use channel::delay::DelayRing;
    use gate::Gate;
    use links::losses::Losses;
    use links::one_link;
    use std::process::Abort;
    use symbol::Note;

    const O: Note = Note::Sound;

    const X: Note = Note::Lost;

    // Fills an idle channel, finds it full, and takes all again in order once the delay has passed.
    fn fills<T: Channel>(rt: &impl Abort, channel: &mut T, places: u32, delay: u32) {
        assert!(rt; channel.is_idle());
        assert_eq!(rt; channel.take(), None);
        for number in 0..places {
            assert!(rt; channel.has_space() && channel.put(sound(number)));
        }
        assert!(rt; !channel.has_space() && !channel.put(sound(places)));
        for _ in 0..delay {
            assert_eq!(rt; channel.take(), None);
            channel.step();
        }
        for number in 0..places {
            assert_eq!(rt; channel.take(), Some(sound(number)));
        }
        assert_eq!(rt; channel.take(), None);
        assert!(rt; channel.is_idle());
    }

    // Sends the frames 1 to 6, of which the ones at an X come lost.
    fn loses(rt: &impl Abort, entries: &[(u32, u32)], notes: [Note; 6]) {
        let mut wire = lossy_wire(SymbolKind::Frame, entries);
        for note in notes {
            assert_eq!(rt; sent(&mut wire, F), Some(note));
        }
    }

    #[test]
    fn wires_fill_and_empty(rt: HostRuntime) {
        let mut wire = Wire::new();
        fills(&rt, &mut wire, 32, 0);
        fills(&rt, &mut wire, 32, 0);
        fills(&rt, &mut lossy_wire(SymbolKind::RRdy, &[(1, 9)]), 32, 0);
    }

    #[test]
    fn delays_go_to_the_nearer_end(rt: HostRuntime) {
        for (asked, delay) in [
            (0, 1),
            (1, 1),
            (2, 2),
            (1000, 1000),
            (1001, 1000),
            (65535, 1000),
        ] {
            fills(&rt, &mut DelayRing::new(asked), 64, delay);
        }
    }

    #[test]
    fn each_item_counts_down_by_itself(rt: HostRuntime) {
        let mut ring = DelayRing::new(3);
        assert!(rt; ring.put(sound(1)));
        ring.step();
        assert!(rt; ring.put(sound(2)));
        ring.step();
        ring.step();
        assert_eq!(rt; ring.take(), Some(sound(1)));
        assert_eq!(rt; ring.take(), None);
        ring.step();
        assert_eq!(rt; ring.take(), Some(sound(2)));
    }

    #[test]
    fn entries_overlap_touch_and_reach_the_top(rt: HostRuntime) {
        loses(&rt, &[], [O, O, O, O, O, O]);
        loses(&rt, &[(2, 3), (3, 3)], [O, X, X, X, X, O]);
        loses(&rt, &[(1, 2), (3, 2)], [X, X, X, X, O, O]);
        loses(&rt, &[(6, 1), (2, 1)], [O, X, O, O, O, X]);
        loses(&rt, &[(0, 2), (3, 0)], [X, O, O, O, O, O]);
        loses(&rt, &[(5, 4294967295)], [O, O, O, O, X, X]);
        loses(&rt, &[(4294967295, 4294967295)], [O, O, O, O, O, O]);
    }

    #[test]
    fn letters_count_apart(rt: HostRuntime) {
        let mut wire = lossy_wire(SymbolKind::Mark(Mark::BbScS), &[(2, 1)]);
        for symbol in [F, R, S, C, F, R] {
            assert_eq!(rt; sent(&mut wire, symbol), Some(Note::Sound));
        }
        assert_eq!(rt; sent(&mut wire, C), Some(Note::Sound));
        assert_eq!(rt; sent(&mut wire, S), Some(Note::Lost));
        assert_eq!(rt; sent(&mut wire, S), Some(Note::Sound));
    }

    #[test]
    fn scripts_keep_sixteen(rt: HostRuntime) {
        let mut script = LossScript::new();
        for first in 0..17 {
            let entry = LossEntry {
                kind: SymbolKind::Frame,
                first: first + 1,
                count: 1,
            };
            assert!(rt; script.add(entry) == (first < 16));
        }
        assert!(rt; script.names(SymbolKind::Frame, 16) && !script.names(SymbolKind::Frame, 17));
    }

    #[test]
    fn refused_puts_do_not_count(rt: HostRuntime) {
        let mut wire = lossy_wire(SymbolKind::Frame, &[(33, 1)]);
        for number in 1..33 {
            assert!(rt; wire.put(sound(number)));
        }
        assert!(rt; !wire.put(sound(33)));
        assert_eq!(rt; wire.take(), Some(sound(1)));
        assert!(rt; wire.put(sound(33)));
        for number in 2..33 {
            assert_eq!(rt; wire.take(), Some(sound(number)));
        }
        assert_eq!(rt; wire.take(), Some(lost(33)));
    }

    #[test]
    fn layers_over_layers(rt: HostRuntime) {
        let mut script = LossScript::new();
        assert!(rt;
            script.add(LossEntry {
                kind: SymbolKind::Frame,
                first: 2,
                count: 1,
            })
        );
        let mut twice = ScriptedLoss::new(lossy_wire(SymbolKind::Frame, &[(1, 1), (4, 1)]), script);
        for note in [Note::Lost, Note::Lost, Note::Sound, Note::Lost, Note::Sound] {
            assert_eq!(rt; sent(&mut twice, F), Some(note));
        }
        assert!(rt; twice.put(lost(6)));
        assert_eq!(rt; twice.take(), Some(lost(6)));
    }

    #[test]
    fn layers_copy_the_letter_below(rt: HostRuntime) {
        assert!(rt; Wire::LETTER == b'w' && DelayRing::LETTER == b'd' && Gate::LETTER == b'g');
        assert!(rt;
            ScriptedLoss::<Wire>::LETTER == b'w' && ScriptedLoss::<DelayRing>::LETTER == b'd'
        );
        assert!(rt; ScriptedLoss::<ScriptedLoss<DelayRing>>::LETTER == b'd');
        assert!(rt; ScriptedLoss::<Gate>::kind_letter() == b'g');
    }

    #[test]
    fn gates_lose_every_second_item(rt: HostRuntime) {
        let mut gate = Gate::new();
        fills(&rt, &mut gate, 1, 1);
        for note in [Note::Lost, Note::Sound, Note::Lost] {
            assert_eq!(rt; sent(&mut gate, R), Some(note));
        }
        assert!(rt; gate.put(sound(1)) && !gate.put(sound(2)) && !gate.has_space());
    }

    // A bank of a wire, a delay ring and a gate, nested either way.
    fn numbered<B: Bank>(rt: &impl Abort, bank: &mut B) {
        assert!(rt; bank.count() == 3);
        for (number, letter) in [
            (0, b'w'),
            (1, b'd'),
            (2, b'g'),
            (3, b'-'),
            (254, b'-'),
            (255, b'-'),
        ] {
            assert!(rt; bank.letter(number) == letter);
            assert!(rt; bank.is_idle(number));
            assert!(rt; bank.put(number, sound(1)) == (number < 3));
            assert!(rt; bank.is_idle(number) == (number > 2));
            assert!(rt; bank.has_space(number) == (number < 2));
        }
        assert_eq!(rt; bank.take(0), Some(sound(1)));
        assert_eq!(rt; bank.take(1), None);
        bank.step();
        assert_eq!(rt; bank.take(0), None);
        assert_eq!(rt; bank.take(1), Some(sound(1)));
        assert_eq!(rt; bank.take(2), Some(sound(1)));
        assert_eq!(rt; bank.take(3), None);
    }

    fn one<T: Channel>(channel: T) -> One<T> {
        One { channel }
    }

    #[test]
    fn pairs_nest_both_ways(rt: HostRuntime) {
        let first = Pair::new(one(Wire::new()), one(DelayRing::new(1)));
        numbered(&rt, &mut Pair::new(first, one(Gate::new())));
        let second = Pair::new(one(DelayRing::new(1)), one(Gate::new()));
        numbered(&rt, &mut Pair::new(one(Wire::new()), second));
    }

    #[test]
    fn losses_go_by_direction(rt: HostRuntime) {
        let mut losses = Losses::new();
        let entry = LossEntry {
            kind: SymbolKind::Frame,
            first: 1,
            count: 1,
        };
        assert!(rt; losses.add(1, entry) && !losses.add(6, entry));
        let mut bank = one_link(&losses);
        assert!(rt; bank.put(0, sound(1)) && bank.put(1, sound(1)) && !bank.put(2, sound(1)));
        assert_eq!(rt; bank.take(0), Some(sound(1)));
        assert_eq!(rt; bank.take(1), Some(lost(1)));
    }
}
