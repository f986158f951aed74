// A step on lent bytes: the words judged (11 to 15), the bytes checked (31), and the kind's action on them; and the refusal
// that a step would answer with, judged alone.

#![tactic(auto)]

ghost use Rattle.std.specs.Prelude.{◌≡◌, true, IfOk};
ghost use Rattle.base.specs.Chains.{◌⨾◌};
ghost use Rattle.model.specs.Answers.{plain};
ghost use Rattle.model.specs.Call.{words_of};
ghost use Rattle.model.specs.KindNumbers.{kind_meaning, kind_number};
ghost use Rattle.model.specs.RefusalNumbers.{refused_by};
ghost use Rattle.store.specs.StoredForm.{is_stored};
ghost use Rattle.hall.specs.Acts.{Judged, number_on, Does};
ghost use Rattle.calls.specs.Calls.{step_on};
ghost use Rattle.calls.specs.Steps.{Steps};
ghost use Rattle.step.specs.Numbers.{word_kind_number, bytes_number};

use answer::Answer;
use client::{
    confirm, confirm_refusal, deliver, deliver_refusal, label, label_refusal, submit,
    submit_refusal,
};
use hall::size;
use model::kinds::Kind;
use model::refusals::Refusal;
use noticing::{notice, notice_refusal};
use receiving::{receive, receive_refusal};
use sending::{send_entry, send_entry_refusal, send_summary, send_summary_refusal};
use validity::is_hall;
use views::{enter, enter_refusal, form, form_refusal, place_message, place_refusal};
use words::{input_refusal, refuse};

// The action of a kind, its words judged.
fn act(bytes: &mut [u8], k: Kind, r: u32, a: u32, b: u32) -> Result<Answer, Refusal>
    requires { Judged bytes.old (kind_meaning k) r a b }
    ensures { Does bytes.old (kind_meaning k) r a b result bytes.new }
{
    match k {
        Kind::Submit => submit(bytes, r, a),
        Kind::Label => label(bytes, r),
        Kind::SendEntry => send_entry(bytes, r),
        Kind::SendSummary => send_summary(bytes, r),
        Kind::Form => form(bytes, a, b),
        Kind::Enter => enter(bytes, r, a),
        Kind::Place => place_message(bytes, r, a),
        Kind::Receive => receive(bytes, r),
        Kind::Notice => notice(bytes, r),
        Kind::Confirm => confirm(bytes, r),
        Kind::Deliver => deliver(bytes, r),
    }
}

// 32 to 40 of a kind, its words judged.
fn act_refusal(bytes: &[u8], k: Kind, r: u32, a: u32, b: u32) -> Result<(), Refusal>
    requires { Judged bytes.now (kind_meaning k) r a b }
    ensures { refused_by result ≡ number_on bytes.now (kind_meaning k) r a }
{
    match k {
        Kind::Submit => submit_refusal(bytes),
        Kind::Label => label_refusal(bytes, r),
        Kind::SendEntry => send_entry_refusal(bytes, r),
        Kind::SendSummary => send_summary_refusal(bytes, r),
        Kind::Form => form_refusal(bytes, a),
        Kind::Enter => enter_refusal(bytes, r, a),
        Kind::Place => place_refusal(bytes, r, a),
        Kind::Receive => receive_refusal(bytes, r),
        Kind::Notice => notice_refusal(bytes, r),
        Kind::Confirm => confirm_refusal(bytes, r),
        Kind::Deliver => deliver_refusal(bytes, r),
    }
}

// 31: "the bytes are no hall's stored form".
pub fn bytes_refusal(bytes: &[u8]) -> Result<(), Refusal>
    ensures { refused_by result ≡ bytes_number bytes.now }
{
    refuse(!is_hall(bytes), Refusal::Bytes)
}

// 11 and 31; else the kind.
pub fn early_refusal(bytes: &[u8], k: u32) -> Result<Kind, Refusal>
    ensures number { refused_by result ≡ word_kind_number k ⨾ bytes_number bytes.now }
    ensures kind { IfOk result (λ κ. kind_number κ ≡ k) }
{
    let kind = Kind::try_from(k);
    let stored = bytes_refusal(bytes);
    kind.and(stored).and(kind)
}

// A step of a kind on bytes that are known to hold a hall: they are not checked again.
pub fn step_kind(bytes: &mut [u8], k: Kind, r: u32, a: u32, b: u32) -> Result<Answer, Refusal>
    requires { is_stored bytes.old ≡ true }
    ensures { Steps bytes.old (kind_number k) r a b result bytes.new }
{
    input_refusal(size(bytes), k, r, a, b)?;
    act(bytes, k, r, a, b)
}

// The refusal that `step_kind` would answer with: judged, and not performed.
pub fn refusal_kind(bytes: &[u8], k: Kind, r: u32, a: u32, b: u32) -> Result<(), Refusal>
    requires { is_stored bytes.now ≡ true }
    ensures { refused_by result
        ≡ (plain (step_on bytes.now (words_of (kind_number k) r a b)).answer).number }
{
    input_refusal(size(bytes), k, r, a, b)?;
    act_refusal(bytes, k, r, a, b)
}

// A step on bytes that are known to hold a hall: they are not checked again. For the crates of this repository.
pub fn step_hall(bytes: &mut [u8], k: u32, r: u32, a: u32, b: u32) -> Result<Answer, Refusal>
    requires { is_stored bytes.old ≡ true }
    ensures { Steps bytes.old k r a b result bytes.new }
{
    let kind = Kind::try_from(k)?;
    step_kind(bytes, kind, r, a, b)
}

// The refusal that `step_hall` would answer with: judged, and not performed.
pub fn refusal_hall(bytes: &[u8], k: u32, r: u32, a: u32, b: u32) -> Result<(), Refusal>
    requires { is_stored bytes.now ≡ true }
    ensures { refused_by result ≡ (plain (step_on bytes.now (words_of k r a b)).answer).number }
{
    let kind = Kind::try_from(k)?;
    refusal_kind(bytes, kind, r, a, b)
}

// The refusal that `step` would answer with: judged, and not performed.
pub fn refusal(bytes: &[u8], k: u32, r: u32, a: u32, b: u32) -> Result<(), Refusal>
    ensures { refused_by result ≡ (plain (step_on bytes.now (words_of k r a b)).answer).number }
{
    let kind = early_refusal(bytes, k)?;
    refusal_kind(bytes, kind, r, a, b)
}

// A step on any bytes: kind k, recorder r, arguments a and b.
pub fn step(bytes: &mut [u8], k: u32, r: u32, a: u32, b: u32) -> Result<Answer, Refusal>
    ensures { Steps bytes.old k r a b result bytes.new }
{
    let kind = early_refusal(bytes, k)?;
    step_kind(bytes, kind, r, a, b)
}
