//! What holds of all words and requests.
ghost use Rattle.std.specs.Prelude.{List};
ghost use Rattle.command_words.specs.declared.request.Request.{Request};
ghost use Rattle.clap.specs.Words.{Text};
ghost use Rattle.command_words.specs.Requests.{asked_of, asks, IsAnswered};
ghost use Rattle.command_words.specs.PlainLines.{ReadsPlain};

/// The words of a plain command line are read as they stand.
pub fn plain_words_are_read()
    ensures { (words : List Text) → ReadsPlain words (asked_of words) }
{}

/// No request lacks what its command needs.
pub fn requests_are_answered()
    ensures { (request : Request) → IsAnswered (asks request) }
{}
