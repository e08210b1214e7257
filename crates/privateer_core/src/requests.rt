//! What is answered to the words.
ghost use Rattle.std.specs.Prelude.{◌≡◌, ◌≤◌, IfOk};
ghost use Rattle.command_words.specs.Requests.{asked_of, asks, IsAnswered};
ghost use Rattle.privateer_core.specs.Requests.{AnswersWords};

use command_words::request::{Request, read_request};
use plain_commands::answer::{Answer, refuse};
use plain_commands::commands::{check_command, run_command};
use plain_commands::status::USAGE;
use pv_base::bytes::Bytes;
use pv_base::list::List;
use pv_base::outside::Files;
use pv_base::want::Memory;
use std::alloc::Global;

/// What a request is answered.
#[tactic(auto, using(crate::proofs::RequestLemmas::run_asked, crate::proofs::RequestLemmas::check_asked))]
fn answer_request<F: Files>(
    alloc: Global,
    files: &mut F,
    request: Request,
) -> Result<Answer, Memory>
    ensures content { F.content files.new ≡ F.content files.old }
    ensures later { F.faults files.old ≤ F.faults files.new }
    ensures answers { IfOk result (AnswersWords (F.content files.old) (asks request) (F.faults files.old) (F.faults files.new)) }
    ensures answered { IsAnswered (asks request) }
{
    match request {
        Request::Usage { line } => Ok(refuse(alloc, USAGE, line)),
        Request::Refused { text } => Ok(refuse(alloc, USAGE, text)),
        Request::Run {
            module,
            input,
            budget,
        } => run_command(alloc, files, module.as_str(), input.as_str(), budget),
        Request::Check { module } => check_command(alloc, files, module.as_str()),
    }
}

/// What the words are answered.
pub fn answer<F: Files>(alloc: Global, words: &List<Bytes>, files: &mut F) -> Result<Answer, Memory>
    ensures content { F.content files.new ≡ F.content files.old }
    ensures later { F.faults files.old ≤ F.faults files.new }
    ensures answers { IfOk result (AnswersWords (F.content files.old) (asked_of words.now) (F.faults files.old) (F.faults files.new)) }
    ensures answered { IfOk result (λ a. IsAnswered (asked_of words.now)) }
{
    let request = read_request(alloc, words.as_slice())?;
    answer_request(alloc, files, request)
}
