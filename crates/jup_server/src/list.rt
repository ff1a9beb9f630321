ghost use Rattle.std.specs.Prelude.{◌≡◌, List, IfOk, OnErr, MatchResult};
ghost use Rattle.ss_base.specs.Lists.{IsPrefixOf};
ghost use Rattle.sheet_ops.specs.declared.operation.Entry.{Entry};
ghost use Rattle.sheet_ops.specs.Represents.{ServerRepresents};
ghost use Rattle.jup_server.specs.declared.list.Sent.{Sent};
ghost use Rattle.jup_server.specs.declared.list.Answer.{Answer};
ghost use Rattle.jup_server.specs.declared.list.Answer.TheVariants as answer;
ghost use Rattle.jup_server.specs.declared.SubmitErr.TheVariants as fault;
ghost use Rattle.jup_server.specs.Answers.{AnswersOne, AnswersAll};

use crate::{Server, SubmitErr};
use sheet_ops::Up;
use ss_base::{Memory, Seq, Site};
use std::alloc::Global;

/// A message, and the site that it comes from.
#[derive(Debug, Drop)]
pub struct Sent {
    pub site: Site,
    pub up: Up,
}

/// What became of a message.
#[derive(Clone, Copy, Debug, PartialEq, Eq)]
pub enum Answer {
    /// It is an entry of the history.
    Taken,
    /// It was refused for this cause, which is never want of memory.
    Refused(SubmitErr),
}

/// Submits messages one after another, and answers each. Want of memory ends it after some of them.
pub fn submit_all(
    alloc: Global,
    server: &mut Server,
    list: &Seq<Sent>,
) -> Result<Seq<Answer>, Memory>
    ensures answers { (H : List Entry) → ServerRepresents server.old H →
        IfOk result (λ answers. (K : List Entry) × AnswersAll server.old.size server.old.sites H list.now answers K × ServerRepresents server.new K) }
    ensures memory { (H : List Entry) → ServerRepresents server.old H →
        OnErr result ((done : List Sent) × (answers : List Answer) × (K : List Entry) × IsPrefixOf done list.now × AnswersAll server.old.size server.old.sites H done answers K × ServerRepresents server.new K) }
    ensures stays { (server.new.size ≡ server.old.size) × (server.new.sites ≡ server.old.sites) }
{
    let mut answers = Vec::with_capacity(alloc, list.len())?;
    for sent in list.as_slice() {
        let answer = submit_one(server, sent)?;
        answers.push_reserved(answer);
    }
    Ok(Seq::from_vec(answers))
}

/// Submits a message. Want of memory leaves the server.
fn submit_one(server: &mut Server, sent: &Sent) -> Result<Answer, Memory>
    ensures answer { (H : List Entry) → ServerRepresents server.old H →
        IfOk result (λ answer. (K : List Entry) × AnswersOne server.old.size server.old.sites H sent.now answer K × ServerRepresents server.new K) }
    ensures stays { (server.new.size ≡ server.old.size) × (server.new.sites ≡ server.old.sites) }
    ensures err { OnErr result (server.new ≡ server.old) }
{
    match server.submit(sent.site, &sent.up) {
        Ok(_) => Ok(Answer::Taken),
        Err(cause) => refusal(cause),
    }
}

/// The answer for a refusal, where it isn't want of memory.
fn refusal(cause: SubmitErr) -> Result<Answer, Memory>
    ensures { MatchResult result (λ given. (given ≡ answer.Refused cause) × (cause ≡ fault.Memory → ⊥)) (λ _. cause ≡ fault.Memory) }
{
    match cause {
        SubmitErr::Memory => Err(Memory),
        SubmitErr::NoSite | SubmitErr::Spent | SubmitErr::BadSeen { .. } | SubmitErr::BadPlace(_) =>
            Ok(Answer::Refused(cause)),
    }
}
