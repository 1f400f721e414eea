//! The program over any source, sink and device: the reply to the words, and its delivery.

ghost use Rattle.std.specs.Prelude.{◌≡◌, ◌↔◌, ◌⊎◌, [], ◌∷◌, IsTrue};
ghost use Rattle.key_device.specs.Devices.{DeviceMeaning, MeansSame};
ghost use Rattle.vc_session.specs.declared.reply.Reply.{Reply as AnyReply};
ghost use Rattle.vc_session.specs.Answers.{HasSoundReply, HasSoundYes, Keeps, Signs};
ghost use Rattle.vc_cli.specs.Commands.{Answers, IsCommand, IsIssueCommand, IsVerifyCommand};
ghost use Rattle.vc_cli.specs.Delivery.{Delivers};

use crate::status::Status;
use key_device::KeyDevice;
use nquads::Text;
use std::alloc::Global;
use vc_io::{Sink, Source};
use vc_session::Reply;

/// Answers the command that the words name, from `source` to `sink`, with a key device.
///
/// `words` are without the program's name. The commands are `statements`, `issue` and `verify`. Each reads
/// a request to its end: the first writes the statements of its document as canonical N-Quads, the second
/// secures the document with a base proof in which every statement is mandatory, and the third checks a
/// derived proof of such a document. A refusal is one line of JSON.
#[tactic(auto, using(crate::proofs::CommandWords::word_steps))]
pub fn run<S: Source, K: Sink, D: KeyDevice>(
    alloc: Global,
    words: &[Text],
    source: &mut S,
    sink: &mut K,
    device: &mut D,
) -> Status
    // One reply answers the words and the input, it was delivered, and nothing is signed but what it says.
    ensures answer { (reply : AnyReply)
        × Answers words.now (S.means source.old) (S.means source.new)
        (D.means device.old) (D.means device.new) reply
        × Delivers reply result (K.means sink.old) (K.means sink.new)
        × Signs (S.means source.old) (D.means device.old) (D.means device.new) reply }
    // Under other words nothing is read.
    ensures unread { (IsCommand words.now → ⊥) → source.new ≡ source.old }
    // Only issuing and verifying use the device, and verifying changes nothing that the device means but
    // its next secret and its count of faults.
    ensures unused { (IsIssueCommand words.now → ⊥) → (IsVerifyCommand words.now → ⊥)
        → device.new ≡ device.old }
    ensures only_checks { IsVerifyCommand words.now
        → MeansSame (D.means device.old) (D.means device.new) }
    // No command takes back what the device accepts or owns.
    ensures keeps { Keeps (D.means device.old) (D.means device.new) }
    // A yes names one record of every history that covers it, which holds of the document and its options.
    ensures sound { IsVerifyCommand words.now → result ≡ Status.Done
        → HasSoundYes (S.means source.old) (D.means device.old).accepts }
{
    let reply = reply_to(alloc, words, source, device);
    deliver(&reply, sink)
}

/// Answers words that name no command which uses a device, without one.
pub fn run_alone<S: Source, K: Sink>(
    alloc: Global,
    words: &[Text],
    source: &mut S,
    sink: &mut K,
) -> Status
    // As `run` answers them, over any device, which stays as it is.
    ensures answer { (device : DeviceMeaning)
        → (IsIssueCommand words.now → ⊥) → (IsVerifyCommand words.now → ⊥)
        → (reply : AnyReply)
        × Answers words.now (S.means source.old) (S.means source.new) device device reply
        × Delivers reply result (K.means sink.old) (K.means sink.new) }
    ensures unread { (IsCommand words.now → ⊥) → source.new ≡ source.old }
{
    let reply = reply_alone(alloc, words, source);
    deliver(&reply, sink)
}

/// Whether the words name a command that uses a device.
pub fn uses_device(words: &[Text]) -> bool
    ensures { IsTrue result ↔ (IsIssueCommand words.now ⊎ IsVerifyCommand words.now) }
{
    is_word(words, "issue") || is_word(words, "verify")
}

/// The reply to a command.
#[tactic(auto, using(crate::proofs::CommandWords::word_steps))]
fn reply_to<S: Source, D: KeyDevice>(
    alloc: Global,
    words: &[Text],
    source: &mut S,
    device: &mut D,
) -> Reply
    ensures answer { Answers words.now (S.means source.old) (S.means source.new)
        (D.means device.old) (D.means device.new) result }
    ensures signs { Signs (S.means source.old) (D.means device.old) (D.means device.new) result }
    ensures unread { (IsCommand words.now → ⊥) → source.new ≡ source.old }
    ensures unused { (IsIssueCommand words.now → ⊥) → (IsVerifyCommand words.now → ⊥)
        → device.new ≡ device.old }
    ensures only_checks { IsVerifyCommand words.now
        → MeansSame (D.means device.old) (D.means device.new) }
    ensures keeps { Keeps (D.means device.old) (D.means device.new) }
    ensures sound { IsVerifyCommand words.now
        → HasSoundReply (S.means source.old) (D.means device.old).accepts result }
{
    if is_word(words, "issue") {
        return vc_session::issue(alloc, source, device);
    }
    if is_word(words, "verify") {
        return vc_session::verify(alloc, source, device);
    }
    reply_alone(alloc, words, source)
}

/// The reply to words that name neither issuing nor verifying.
#[tactic(auto, using(crate::proofs::CommandWords::word_steps))]
fn reply_alone<S: Source>(alloc: Global, words: &[Text], source: &mut S) -> Reply
    ensures answer { (device : DeviceMeaning)
        → (IsIssueCommand words.now → ⊥) → (IsVerifyCommand words.now → ⊥)
        → Answers words.now (S.means source.old) (S.means source.new) device device result }
    ensures signs { (device : DeviceMeaning) → Signs (S.means source.old) device device result }
    ensures unread { (IsCommand words.now → ⊥) → source.new ≡ source.old }
{
    if is_word(words, "statements") {
        return vc_session::statements(alloc, source);
    }
    Reply::Usage
}

/// Whether the words are this one.
fn is_word(words: &[Text], text: &str) -> bool
    ensures { IsTrue result ↔ (words.now ≡ text.now ∷ []) }
{
    match words {
        [word] => word.as_str() == text,
        _ => false,
    }
}

/// Writes a reply, and says how the run ended. It takes no memory.
pub(crate) fn deliver<K: Sink>(reply: &Reply, sink: &mut K) -> Status
    ensures { Delivers reply.now result (K.means sink.old) (K.means sink.new) }
{
    match vc_io::write_all(sink, reply.as_bytes()) {
        Ok(()) => Status::of(reply),
        Err(_) => Status::WriteFault,
    }
}
