// For measurements (bench/): steps one after another on a slice that is checked once.

#![tactic(auto)]

ghost use Rattle.std.specs.Prelude.{◌≡◌, true};
ghost use Rattle.store.specs.StoredForm.{is_stored};
ghost use Rattle.calls.specs.Calls.{run_on};
ghost use Rattle.runfile.specs.Answers.{actions_of};
ghost use Rattle.step.specs.Numbers.{bytes_number};

use step::{bytes_refusal, step_hall};

// The actions of a slice, four words each, one after another on bytes that hold a hall. A shorter rest is no part of the list.
fn run(hall: &mut [u8], actions: &[u32])
    requires { is_stored hall.old ≡ true }
    ensures { hall.new ≡ run_on hall.old (actions_of actions.now) }
{
    for w in actions.chunks_exact(4) {
        let _ = step_hall(hall, w[0], w[1], w[2], w[3]);
    }
}

// The actions of a slice on bytes that are checked once: 31, or 0.
#[unsafe(no_mangle)]
pub extern "C" fn hall_steps(hall: &mut [u8], actions: &[u32]) -> u32
    ensures number { result ≡ bytes_number hall.old }
    ensures bytes { hall.new ≡ run_on hall.old (actions_of actions.now) }
{
    if let Err(why) = bytes_refusal(hall) {
        return u32::from(why);
    }
    run(hall, actions);
    0
}
