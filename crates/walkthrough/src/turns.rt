//! Turns: every turn that is taken is answered or withdrawn, also where printing fails.

use crate::say::say;
use burst::Burst;
use kinds::psk::Psk;
use refusal::Refusal;
use std::io;
use table::Turn;

/// What burst 1 refuses while its turn is out.
fn refused_while_out(rt: &HostRuntime, near: &mut Burst<Psk>) -> io::Result<()> {
    let again = near.take(&mut [0; 6]).and_then(|turn| near.withdraw(turn));
    say(rt, "take again", again)?;
    say(rt, "tell symbol 1 5 5", near.tell(1, &[5, 5]))?;
    say(rt, "erase symbol 1", near.erase(1))
}

/// A taken sheet.
fn say_sheet(rt: &HostRuntime, sheet: &[i16]) -> io::Result<()> {
    println!(rt; "take: sheet {sheet:?}")
}

/// Takes a turn and hands it on to `end`, which ends it.
fn with_turn<F: FnOnce(&mut Burst<Psk>, Turn) -> io::Result<()>>(
    rt: &HostRuntime,
    near: &mut Burst<Psk>,
    end: F,
) -> io::Result<()>
    requires { F.IsAlwaysCallable end }
{
    let mut sheet = [0; 6];
    match near.take(&mut sheet) {
        Ok(turn) => {
            let first = say_sheet(rt, &sheet);
            let second = end(near, turn);
            first?;
            second
        }
        Err(refusal) => say(rt, "take", Err(refusal)),
    }
}

/// What an answer came to; a turn that comes back is withdrawn.
fn say_answer(
    rt: &HostRuntime,
    near: &mut Burst<Psk>,
    call: &str,
    reply: Result<(), (Turn, Refusal)>,
) -> io::Result<()> {
    match reply {
        Ok(()) => say(rt, call, Ok(())),
        Err((turn, refusal)) => {
            let ended = near.withdraw(turn);
            say(rt, call, Err(refusal))?;
            say(rt, "withdraw", ended)
        }
    }
}

/// Answers with as many values as are needed.
fn answer(rt: &HostRuntime, near: &mut Burst<Psk>, turn: Turn) -> io::Result<()> {
    let reply = near.answer(turn, &[-100, -200, 500, -300, 40, 60]);
    say_answer(rt, near, "answer with 6 values", reply)
}

/// Answers with too few values, which gives the turn back, and then with as many as are needed.
fn answer_twice(rt: &HostRuntime, near: &mut Burst<Psk>, turn: Turn) -> io::Result<()> {
    match near.answer(turn, &[0; 5]) {
        Ok(()) => say(rt, "answer with 5 values", Ok(())),
        Err((turn, refusal)) => {
            let first = say(rt, "answer with 5 values", Err(refusal));
            let second = answer(rt, near, turn);
            first?;
            second
        }
    }
}

/// Takes a turn, is refused what a turn that is out forbids, and answers.
pub fn answered_turn(rt: &HostRuntime, near: &mut Burst<Psk>) -> io::Result<()> {
    with_turn(rt, near, |near, turn| {
        let first = refused_while_out(rt, near);
        let second = answer_twice(rt, near, turn);
        first?;
        second
    })
}

/// Takes a turn, answers the other burst with it, which is refused, and withdraws it.
pub fn foreign_turn(
    rt: &HostRuntime,
    near: &mut Burst<Psk>,
    far: &mut Burst<Psk>,
) -> io::Result<()> {
    with_turn(rt, near, |near, turn| {
        let reply = far.answer(turn, &[0; 6]);
        say_answer(rt, near, "answer burst 2 with this turn", reply)
    })
}
