//! The command line.

ghost use Rattle.std.specs.Prelude.{◌≡◌, ◌⊎◌, [], ◌∷◌, IfNone, IfSome, Some, codes, map, option_map, string_bytes};
ghost use Rattle.tiffpage_lib.specs.Words.{AskFor, AskForJobs, AskForLimit, AskForPlanes, AskForPlanesFirst, AskForPlanesLast, IsAppend, IsAsked, IsCalls, IsCheck, IsDirectories, IsGray, IsHelp, IsJobs, IsList, IsNumber, IsRaw, IsTags, IsView, output_of};

use tiff::tags::FileKind;

/// What the words of a command line ask for.
#[derive(Clone, Copy, Debug)]
pub enum Command<'a> {
    /// To write the bytes of a file as one gray page.
    Gray {
        output: &'a str,
        width: u32,
        height: u32,
        input: &'a str,
    },
    /// To write the samples of a page as bytes, of all planes or of the first one; no buffer is
    /// larger than the limit, if there is one.
    Raw {
        input: &'a str,
        page: u32,
        output: &'a str,
        planes: bool,
        limit: Option<usize>,
    },
    /// To write a page as a PNG file.
    View {
        input: &'a str,
        page: u32,
        output: &'a str,
    },
    /// To print a line for each entry of a page.
    Tags {
        input: &'a str,
        page: u32,
    },
    /// To print a line for each page.
    List {
        input: &'a str,
    },
    /// To print a line for each directory that the chain and the tags reach.
    Directories {
        input: &'a str,
    },
    /// To read each page whole, and print a line for it; no buffer is larger than the limit, if
    /// there is one.
    Check {
        input: &'a str,
        limit: Option<usize>,
    },
    /// To print what the commands are.
    Help,
    /// To make the calls of a decoder that standard input lists, and print the replies.
    Calls {
        input: &'a str,
    },
    /// To run the jobs that standard input lists, print the replies, and write their file: if none
    /// of the replies is an error, or in each case if the command keeps going.
    Jobs {
        output: &'a str,
        kind: FileKind,
        keep_going: bool,
    },
    /// To run the jobs that standard input lists behind a file, print the replies, and add what
    /// they write to the file, if none of the replies is an error.
    Append {
        file: &'a str,
    },
    /// To print the version.
    Version,
}

impl<'a> Command<'a> {
    /// The name of the file that the command writes, if it writes one.
    pub fn output(&self) -> Option<&'a str>
        ensures { option_map (λ name. name.now) result ≡ output_of self.now }
    {
        match self {
            Command::Gray { output, .. }
            | Command::Raw { output, .. }
            | Command::View { output, .. }
            | Command::Jobs { output, .. } => Some(*output),
            _ => None,
        }
    }
}

// The kind of the file, and whether the command keeps going, by the words behind the output of
// `jobs`; each of these words stands at most once.
fn job_words(words: &[String]) -> Option<(FileKind, bool)>
    ensures some { IfSome result (λ asked. AskForJobs (map string_bytes words.now) asked.0 asked.1) }
    ensures none { IfNone result ((kind : _) → (keep_going : _)
        → ¬ AskForJobs (map string_bytes words.now) kind keep_going) }
{
    match words {
        [] => Some((FileKind::Classic, false)),
        [word] if word.as_str() == "big" => Some((FileKind::Big, false)),
        [word] if word.as_str() == "--keep-going" => Some((FileKind::Classic, true)),
        [first, second] => match (first.as_str(), second.as_str()) {
            ("big", "--keep-going") | ("--keep-going", "big") => Some((FileKind::Big, true)),
            _ => None,
        },
        _ => None,
    }
}

// The command `jobs`, by the words behind its name.
fn parse_jobs(words: &[String]) -> Option<Command<'_>>
    ensures some { IfSome result (IsJobs (map string_bytes words.now)) }
    ensures none { IfNone result ((command : _) → ¬ IsJobs (map string_bytes words.now) command) }
{
    let (output, rest) = words.split_first()?;
    let (kind, keep_going) = job_words(rest)?;
    Some(Command::Jobs {
        output: output.as_str(),
        kind,
        keep_going,
    })
}

// A number below 2^32.
fn whole_number(word: &str) -> Option<u32>
    ensures some { IfSome result (IsNumber 32 word.now) }
    ensures none { IfNone result ((number : _) → ¬ IsNumber 32 word.now number) }
{
    word.parse::<u32>().ok()
}

// A number of bytes.
fn byte_count(word: &str) -> Option<usize>
    ensures some { IfSome result (IsNumber 64 word.now) }
    ensures none { IfNone result ((number : _) → ¬ IsNumber 64 word.now number) }
{
    word.parse::<usize>().ok()
}

// The limit, if there is one, by the words behind those of a command.
fn limit_words(words: &[String]) -> Option<Option<usize>>
    ensures some { IfSome result (AskForLimit (map string_bytes words.now)) }
    ensures none { IfNone result ((limit : _) → ¬ AskForLimit (map string_bytes words.now) limit) }
{
    match words {
        [] => Some(None),
        [word, count] if word.as_str() == "--limit" => Some(Some(byte_count(count.as_str())?)),
        _ => None,
    }
}

// The limit, if there is one, by words that ask for all planes first.
fn planes_first(words: &[String]) -> Option<Option<usize>>
    ensures some { IfSome result (AskForPlanesFirst (map string_bytes words.now)) }
    ensures none { IfNone result ((limit : _)
        → ¬ AskForPlanesFirst (map string_bytes words.now) limit) }
{
    let (name, options) = words.split_first()?;
    if name.as_str() != "--planes" {
        return None;
    }
    limit_words(options)
}

// The limit, by words that ask for all planes behind it.
fn planes_last(words: &[String]) -> Option<Option<usize>>
    ensures some { IfSome result (AskForPlanesLast (map string_bytes words.now)) }
    ensures none { IfNone result ((limit : _)
        → ¬ AskForPlanesLast (map string_bytes words.now) limit) }
{
    let (name, rest) = words.split_first()?;
    let (count, rest) = rest.split_first()?;
    let (planes, rest) = rest.split_first()?;
    if !rest.is_empty() {
        return None;
    }
    if name.as_str() != "--limit" {
        return None;
    }
    if planes.as_str() != "--planes" {
        return None;
    }
    let limit = byte_count(count.as_str())?;
    Some(Some(limit))
}

// Whether all planes are asked for, and the limit, if there is one, by the words behind those of
// `raw`.
fn raw_options(words: &[String]) -> Option<(bool, Option<usize>)>
    ensures some { IfSome result (λ asked.
        AskForPlanes (map string_bytes words.now) asked.0 asked.1) }
    ensures none { IfNone result ((planes : _) → (limit : _)
        → ¬ AskForPlanes (map string_bytes words.now) planes limit) }
{
    if let Some(limit) = planes_first(words) {
        return Some((true, limit));
    }
    if let Some(limit) = planes_last(words) {
        return Some((true, limit));
    }
    let limit = limit_words(words)?;
    Some((false, limit))
}

// The command `raw`, by the words behind its name.
fn parse_raw(words: &[String]) -> Option<Command<'_>>
    ensures some { IfSome result (IsRaw (map string_bytes words.now)) }
    ensures none { IfNone result ((command : _) → ¬ IsRaw (map string_bytes words.now) command) }
{
    let (input, rest) = words.split_first()?;
    let (number, rest) = rest.split_first()?;
    let page = whole_number(number.as_str())?;
    let (output, options) = rest.split_first()?;
    let (planes, limit) = raw_options(options)?;
    Some(Command::Raw {
        input: input.as_str(),
        page,
        output: output.as_str(),
        planes,
        limit,
    })
}

// The command `view`, by the words behind its name.
fn parse_view(words: &[String]) -> Option<Command<'_>>
    ensures some { IfSome result (IsView (map string_bytes words.now)) }
    ensures none { IfNone result ((command : _) → ¬ IsView (map string_bytes words.now) command) }
{
    let (input, rest) = words.split_first()?;
    let (number, rest) = rest.split_first()?;
    let page = whole_number(number.as_str())?;
    let (output, rest) = rest.split_first()?;
    if !rest.is_empty() {
        return None;
    }
    Some(Command::View {
        input: input.as_str(),
        page,
        output: output.as_str(),
    })
}

// The command `check`, by the words behind its name.
fn parse_check(words: &[String]) -> Option<Command<'_>>
    ensures some { IfSome result (IsCheck (map string_bytes words.now)) }
    ensures none { IfNone result ((command : _) → ¬ IsCheck (map string_bytes words.now) command) }
{
    let (input, options) = words.split_first()?;
    let limit = limit_words(options)?;
    Some(Command::Check {
        input: input.as_str(),
        limit,
    })
}

// The command `gray`, by the words behind its name.
fn parse_gray(words: &[String]) -> Option<Command<'_>>
    ensures some { IfSome result (IsGray (map string_bytes words.now)) }
    ensures none { IfNone result ((command : _) → ¬ IsGray (map string_bytes words.now) command) }
{
    let (output, rest) = words.split_first()?;
    let (columns, rest) = rest.split_first()?;
    let width = whole_number(columns.as_str())?;
    let (rows, rest) = rest.split_first()?;
    let height = whole_number(rows.as_str())?;
    let (input, rest) = rest.split_first()?;
    if !rest.is_empty() {
        return None;
    }
    Some(Command::Gray {
        output: output.as_str(),
        width,
        height,
        input: input.as_str(),
    })
}

// The command `tags`, by the words behind its name.
fn parse_tags(words: &[String]) -> Option<Command<'_>>
    ensures some { IfSome result (IsTags (map string_bytes words.now)) }
    ensures none { IfNone result ((command : _) → ¬ IsTags (map string_bytes words.now) command) }
{
    let (input, rest) = words.split_first()?;
    let (number, rest) = rest.split_first()?;
    let page = whole_number(number.as_str())?;
    if !rest.is_empty() {
        return None;
    }
    Some(Command::Tags {
        input: input.as_str(),
        page,
    })
}

// The one word, if there is one and no other.
fn only_word(words: &[String]) -> Option<&str>
    ensures some { IfSome result (λ word. map string_bytes words.now ≡ word.now ∷ []) }
    ensures none { IfNone result ((word : _) → ¬ (map string_bytes words.now ≡ word ∷ [])) }
{
    let (word, rest) = words.split_first()?;
    if !rest.is_empty() {
        return None;
    }
    Some(word.as_str())
}

// The command `list`, by the words behind its name.
fn parse_list(words: &[String]) -> Option<Command<'_>>
    ensures some { IfSome result (IsList (map string_bytes words.now)) }
    ensures none { IfNone result ((command : _) → ¬ IsList (map string_bytes words.now) command) }
{
    let input = only_word(words)?;
    Some(Command::List { input })
}

// The command `directories`, by the words behind its name.
fn parse_directories(words: &[String]) -> Option<Command<'_>>
    ensures some { IfSome result (IsDirectories (map string_bytes words.now)) }
    ensures none { IfNone result ((command : _) → ¬ IsDirectories (map string_bytes words.now) command) }
{
    let input = only_word(words)?;
    Some(Command::Directories { input })
}

// The command `calls`, by the words behind its name.
fn parse_calls(words: &[String]) -> Option<Command<'_>>
    ensures some { IfSome result (IsCalls (map string_bytes words.now)) }
    ensures none { IfNone result ((command : _) → ¬ IsCalls (map string_bytes words.now) command) }
{
    let input = only_word(words)?;
    Some(Command::Calls { input })
}

// The command `append`, by the words behind its name. A stream has no end to add to.
fn parse_append(words: &[String]) -> Option<Command<'_>>
    ensures some { IfSome result (IsAppend (map string_bytes words.now)) }
    ensures none { IfNone result ((command : _) → ¬ IsAppend (map string_bytes words.now) command) }
{
    let file = only_word(words)?;
    if file == "-" {
        return None;
    }
    Some(Command::Append { file })
}

// This command, if no words are behind its name.
fn alone<'a>(words: &[String], command: Command<'a>) -> Option<Command<'a>>
    ensures some { IfSome result (λ asked. (asked ≡ command.entry) × (map string_bytes words.now ≡ [])) }
    ensures none { IfNone result (¬ (map string_bytes words.now ≡ [])) }
    ensures empty { words.now ≡ [] → result ≡ Some command.entry }
{
    if !words.is_empty() {
        return None;
    }
    Some(command)
}

// The command with this name, by the words behind the name.
fn parse_named<'a>(name: &str, words: &'a [String]) -> Option<Command<'a>>
    ensures asked { IfSome result (IsAsked name.now (map string_bytes words.now)) }
    ensures none { IfNone result ((command : _)
        → ¬ IsAsked name.now (map string_bytes words.now) command) }
    ensures help { IsHelp name.now → words.now ≡ [] → result ≡ Some Command.Help }
    ensures version { name.now ≡ codes "--version" → words.now ≡ []
        → result ≡ Some Command.Version }
{
    match name {
        "raw" => parse_raw(words),
        "view" => parse_view(words),
        "check" => parse_check(words),
        "jobs" => parse_jobs(words),
        "gray" => parse_gray(words),
        "tags" => parse_tags(words),
        "list" => parse_list(words),
        "directories" => parse_directories(words),
        "calls" => parse_calls(words),
        "append" => parse_append(words),
        "help" | "--help" => alone(words, Command::Help),
        "--version" => alone(words, Command::Version),
        _ => None,
    }
}

/// The command that the words of a command line ask for; `None` if they ask for none.
pub fn parse(words: &[String]) -> Option<Command<'_>>
    ensures asked { IfSome result (AskFor (map string_bytes words.now)) }
    ensures none { IfNone result ((command : _) → ¬ AskFor (map string_bytes words.now) command) }
    ensures help { (map string_bytes words.now ≡ codes "help" ∷ [])
        ⊎ (map string_bytes words.now ≡ codes "--help" ∷ []) → result ≡ Some Command.Help }
    ensures version { map string_bytes words.now ≡ codes "--version" ∷ []
        → result ≡ Some Command.Version }
{
    let (name, rest) = words.split_first()?;
    parse_named(name.as_str(), rest)
}
