// The C interface (include/hall.h): open, step, settle, step back, page, check, run files, listings and lines of text, on numbers and slices.
// Each of these functions returns 0 or the number of the refusal. An answer is words in a lent slice.

#![tactic(auto)]

ghost use Rattle.std.specs.Prelude.{◌≡◌, [], ◌∷◌};
ghost use Rattle.calls.specs.Calls.{open_on};
ghost use Rattle.model.specs.Opening.{opening_of};
ghost use Rattle.model.specs.Call.{words_of};
ghost use Rattle.calls.specs.Lent.{step_lent, page_lent, settle_lent, Leaves};
ghost use Rattle.stepback.specs.Held.{bench_of};
ghost use Rattle.stepback.specs.Lent.{step_held_lent, settle_held_lent, LeavesHeld};
ghost use Rattle.stepback.specs.Steps.{StepsBack};
ghost use Rattle.calls.specs.RunsLent.{run_read_lent, run_action_lent, run_write_lent};
ghost use Rattle.runfile.specs.Answers.{opening_with, file_opening, run_of};
ghost use Rattle.replaying.specs.Lent.{list_lent, LeavesList};
ghost use Rattle.story.specs.Lent.{action_lent, opening_lent, parse_lent};
ghost use Rattle.step.specs.Numbers.{bytes_number};
ghost use Rattle.store.specs.Layout.{stored_length};
ghost use Rattle.capi.specs.Version.{version};

use marshal::{page_into, settle_held_into, settle_into, step_held_into, step_into};
use marshal_runs::{run_action_into, run_read_into, run_write_into};
use marshal_text::{list_into, parse_line_into, print_action_into, print_opening_into};
use model::refusals::number_of;
use opening::open;
use runfile::FileOpening;
use step::bytes_refusal;
use stepback::step_back;
use store::layout;

// Version of this interface: major * 1000000 + minor * 1000 + patch.
const VERSION: u32 = 3008000;

// Which version of this interface the library has.
#[unsafe(no_mangle)]
pub extern "C" fn hall_version() -> u32
    ensures { result ≡ version }
{
    VERSION
}

// How many bytes a hall has.
#[unsafe(no_mangle)]
pub extern "C" fn hall_length() -> u32
    ensures { result ≡ stored_length }
{
    layout::LENGTH as u32
}

// Opens a hall of n recorders with the founders of a word and the votes of recorders 1 to 8.
#[unsafe(no_mangle)]
pub extern "C" fn hall_open(
    hall: &mut [u8],
    n: u32,
    founders: u32,
    v1: u32,
    v2: u32,
    v3: u32,
    v4: u32,
    v5: u32,
    v6: u32,
    v7: u32,
    v8: u32,
) -> u32
    ensures number { result
        ≡ (open_on hall.old (opening_of n founders (v1 ∷ v2 ∷ v3 ∷ v4 ∷ v5 ∷ v6 ∷ v7 ∷ v8 ∷ []))).number }
    ensures bytes { hall.new
        ≡ (open_on hall.old (opening_of n founders (v1 ∷ v2 ∷ v3 ∷ v4 ∷ v5 ∷ v6 ∷ v7 ∷ v8 ∷ []))).bytes }
{
    number_of(open(hall, n, founders, [v1, v2, v3, v4, v5, v6, v7, v8]))
}

// A step of kind k at recorder r with arguments a and b.
#[unsafe(no_mangle)]
pub extern "C" fn hall_step(
    hall: &mut [u8],
    k: u32,
    r: u32,
    a: u32,
    b: u32,
    answer: &mut [u8],
) -> u32
    ensures { Leaves (step_lent hall.old (words_of k r a b) answer.old)
        result hall.new answer.new }
{
    step_into(hall, k, r, a, b, answer)
}

// Settles the view with the greatest number (02, A5).
#[unsafe(no_mangle)]
pub extern "C" fn hall_settle(hall: &mut [u8], answer: &mut [u8]) -> u32
    ensures { Leaves (settle_lent hall.old answer.old)
        result hall.new answer.new }
{
    settle_into(hall, answer)
}

// A step that is held in an undo buffer (02, A7).
#[unsafe(no_mangle)]
pub extern "C" fn hall_step_held(
    hall: &mut [u8],
    undo: &mut [u8],
    k: u32,
    r: u32,
    a: u32,
    b: u32,
    answer: &mut [u8],
) -> u32
    ensures { LeavesHeld
        (step_held_lent (bench_of hall.old undo.old) (words_of k r a b) answer.old)
        result hall.new undo.new answer.new }
{
    step_held_into(hall, undo, k, r, a, b, answer)
}

// A settle whose actions are held in an undo buffer.
#[unsafe(no_mangle)]
pub extern "C" fn hall_settle_held(hall: &mut [u8], undo: &mut [u8], answer: &mut [u8]) -> u32
    ensures { LeavesHeld (settle_held_lent (bench_of hall.old undo.old) answer.old)
        result hall.new undo.new answer.new }
{
    settle_held_into(hall, undo, answer)
}

// Takes the newest action of an undo buffer back.
#[unsafe(no_mangle)]
pub extern "C" fn hall_step_back(hall: &mut [u8], undo: &mut [u8]) -> u32
    ensures { StepsBack hall.old undo.old result hall.new undo.new }
{
    number_of(step_back(hall, undo))
}

// The page of recorder r with a place of its order.
#[unsafe(no_mangle)]
pub extern "C" fn hall_page(hall: &[u8], r: u32, place: u32, page: &mut [u8]) -> u32
    ensures { Leaves (page_lent hall.now r place page.old)
        result hall.now page.new }
{
    page_into(hall, r, place, page)
}

// 31 alone: 0 for a hall's stored form.
#[unsafe(no_mangle)]
pub extern "C" fn hall_check(hall: &[u8]) -> u32
    ensures { result ≡ bytes_number hall.now }
{
    number_of(bytes_refusal(hall))
}

// The opening of a run file.
#[unsafe(no_mangle)]
pub extern "C" fn hall_run_read(file: &[u8], words: &mut [u8]) -> u32
    ensures { Leaves (run_read_lent file.now words.old)
        result file.now words.new }
{
    run_read_into(file, words)
}

// The action at an offset of a run file, and the offset after it; or the end.
#[unsafe(no_mangle)]
pub extern "C" fn hall_run_action(file: &[u8], at: usize, words: &mut [u8]) -> u32
    ensures { Leaves (run_action_lent file.now at words.old)
        result file.now words.new }
{
    run_action_into(file, at, words)
}

// An opening by its words, one by one as C passes them.
fn opening_of(
    n: u32,
    founders: u32,
    third: u32,
    v1: u32,
    v2: u32,
    v3: u32,
    v4: u32,
    v5: u32,
    v6: u32,
    v7: u32,
    v8: u32,
) -> FileOpening
    ensures { file_opening result
        ≡ opening_with n founders third (v1 ∷ v2 ∷ v3 ∷ v4 ∷ v5 ∷ v6 ∷ v7 ∷ v8 ∷ []) }
{
    FileOpening {
        size: n,
        founders,
        third,
        words: [v1, v2, v3, v4, v5, v6, v7, v8],
    }
}

// Writes a run, four words an action, at the start of a slice: its opening is N, the founders word, the third word and the
// eight vote words.
#[unsafe(no_mangle)]
pub extern "C" fn hall_run_write(
    file: &mut [u8],
    n: u32,
    founders: u32,
    third: u32,
    v1: u32,
    v2: u32,
    v3: u32,
    v4: u32,
    v5: u32,
    v6: u32,
    v7: u32,
    v8: u32,
    actions: &[u32],
    words: &mut [u8],
) -> u32
    ensures { Leaves
        (run_write_lent file.old
        (run_of (opening_with n founders third (v1 ∷ v2 ∷ v3 ∷ v4 ∷ v5 ∷ v6 ∷ v7 ∷ v8 ∷ [])) actions.now)
        words.old)
        result file.new words.new }
{
    let opening = opening_of(n, founders, third, v1, v2, v3, v4, v5, v6, v7, v8);
    run_write_into(file, opening, actions, words)
}

// The listing of a run file, and the run's last hall.
#[unsafe(no_mangle)]
pub extern "C" fn hall_run_list(
    file: &[u8],
    hall: &mut [u8],
    text: &mut [u8],
    words: &mut [u8],
) -> u32
    ensures { LeavesList
        (list_lent file.now hall.old text.old words.old)
        result hall.new text.new words.new }
{
    list_into(file, hall, text, words)
}

// The line of an opening: N, the founders word, the third word and the eight vote words.
#[unsafe(no_mangle)]
pub extern "C" fn hall_print_opening(
    n: u32,
    founders: u32,
    third: u32,
    v1: u32,
    v2: u32,
    v3: u32,
    v4: u32,
    v5: u32,
    v6: u32,
    v7: u32,
    v8: u32,
    text: &mut [u8],
    words: &mut [u8],
) -> u32
    ensures { Leaves
        (opening_lent (opening_with n founders third (v1 ∷ v2 ∷ v3 ∷ v4 ∷ v5 ∷ v6 ∷ v7 ∷ v8 ∷ []))
        text.old words.old)
        result text.new words.new }
{
    let opening = opening_of(n, founders, third, v1, v2, v3, v4, v5, v6, v7, v8);
    print_opening_into(opening, text, words)
}

// The line of an action.
#[unsafe(no_mangle)]
pub extern "C" fn hall_print_action(
    k: u32,
    r: u32,
    a: u32,
    b: u32,
    text: &mut [u8],
    words: &mut [u8],
) -> u32
    ensures { Leaves (action_lent (words_of k r a b) text.old words.old)
        result text.new words.new }
{
    print_action_into(k, r, a, b, text, words)
}

// What the line at an offset of a text says, and the offset after it.
#[unsafe(no_mangle)]
pub extern "C" fn hall_parse_line(text: &[u8], at: usize, words: &mut [u8]) -> u32
    ensures { Leaves (parse_lent text.now at words.old)
        result text.now words.new }
{
    parse_line_into(text, at, words)
}
