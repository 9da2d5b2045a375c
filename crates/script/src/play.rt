ghost use Rattle.std.specs.Prelude.{◌≡◌};
ghost use Rattle.history.specs.Promises.{KeepsPromise};
ghost use Rattle.register.specs.Held.{chart_of, held, top_of};
ghost use Rattle.register.specs.Calls.{call_of};
ghost use Rattle.script.specs.Playing.{ComesTo, Plays};

use crate::answer::Answer;
use crate::rejection::Rejection;
use chart::kind::Chart;
use commands::command::Command;
use register::call::Call;
use register::register::Register;

/// Plays a command against a register; the words are those of its showing.
pub fn play<C: Chart>(
    register: &mut Register<C>,
    command: Command,
    words: &[i32],
) -> Result<Answer, Rejection<C::Fault>>
    ensures chart { chart_of register.new ≡ chart_of register.old }
    ensures top { top_of register.new ≡ top_of register.old }
    ensures promise { KeepsPromise (C.Chart.meaning (chart_of register.new)) (top_of register.new) (held register.new) }
    ensures plays { Plays (C.Chart.meaning (chart_of register.old)) (top_of register.old) (held register.old) command words.now result (held register.new) }
{
    // `as`: no `From` makes a usize of a u32.
    match command {
        Command::Open { side } => make(register, Call::Open(side)),
        Command::Claim { s, t, value } => {
            let (s, t) = (s as usize, t as usize);
            make(register, Call::Claim { s, t, value })
        }
        Command::Close => make(register, Call::Close),
        Command::Show { s, t } => {
            let (s, t) = (s as usize, t as usize);
            make(register, Call::Show { s, t, words })
        }
        Command::Enter => make(register, Call::Enter),
        Command::Abandon => make(register, Call::Abandon),
        Command::Ask { s, t } => {
            let (lower, upper, verdict) = register.ask(s as usize, t as usize)?;
            Ok(Answer::Entries(lower, upper, verdict))
        }
        Command::Weigh { side, s, t } => register
            .weigh(side, s as usize, t as usize, words)
            .map(Answer::Claim)
            .map_err(Rejection::Fault),
    }
}

/// Makes a call that answers with a count.
fn make<C: Chart>(register: &mut Register<C>, call: Call<'_>) -> Result<Answer, Rejection<C::Fault>>
    ensures chart { chart_of register.new ≡ chart_of register.old }
    ensures top { top_of register.new ≡ top_of register.old }
    ensures promise { KeepsPromise (C.Chart.meaning (chart_of register.new)) (top_of register.new) (held register.new) }
    ensures comes { ComesTo (C.Chart.meaning (chart_of register.old)) (top_of register.old) (held register.old) (call_of call.entry) result (held register.new) }
{
    Ok(Answer::Count(register.call(call)?))
}
