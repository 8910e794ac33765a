// The bytes that a call asks for.
ghost use Rattle.std.specs.Prelude.{◌≡◌, ◌≤◌, IfOk, None, Some, cond, nat_lt};
ghost use Rattle.model.specs.Chain.{answer};
ghost use Rattle.model.specs.declared.Refusal.TheVariants.{SheetFull};

use model::Refusal;

// Whether fewer bytes are left than are asked for.
pub(crate) fn check_room(room: usize, asked: usize) -> Result<(), Refusal>
    ensures value { result ≡ answer (cond (nat_lt room asked) (Some SheetFull) None) tt }
    ensures fits { IfOk result (λ _. asked ≤ room) }
{
    if room < asked {
        return Err(Refusal::SheetFull);
    }
    Ok(())
}
