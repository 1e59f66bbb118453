// The words behind those of a copy or a check that say how it goes.
ghost use Rattle.std.specs.Prelude.{◌≡◌, map};
ghost use Rattle.std.specs.String.{string_bytes};
ghost use Rattle.program_inputs.specs.OptionWords.{asks_all, keeps_times, both_of, how_said, none_said, option_of, options_in, options_of, own_words, words_kept};

/// How a copy or a check goes.
#[derive(Clone, Copy)]
pub struct Options {
    /// It doesn't say how far it is.
    pub is_quiet: bool,
    /// An import leaves out what is neither file, folder nor link.
    pub leaves_out: bool,
}

/// As it goes where no word says otherwise.
pub(crate) fn no_options() -> Options
    ensures { result ≡ none_said }
{
    Options {
        is_quiet: false,
        leaves_out: false,
    }
}

/// Takes the words behind the own ones of a copy or a check out, where they are options of it, each once. A copy's folder was taken before.
pub(crate) fn take_options(words: &mut Vec<String>) -> Options
    ensures options { result ≡ how_said (map string_bytes words.old.items) }
    ensures words { map string_bytes words.new.items ≡ words_kept (map string_bytes words.old.items) }
{
    match options_of(words) {
        Some((own, options)) => {
            words.truncate(own);
            options
        }
        None => no_options(),
    }
}

/// How many of the words are the command's own, and the options that the others are.
fn options_of(words: &[String]) -> Option<(usize, Options)>
    ensures { result ≡ options_of (map string_bytes words.now) }
{
    let [first, more @ ..] = words else {
        return None;
    };
    let own = own_words(first.as_str(), more);
    if own == 0 || words.len() < own {
        return None;
    }
    match options_in(first.as_str(), &words[own..]) {
        Some(options) => Some((own, options)),
        None => None,
    }
}

/// How many own words a command has that has options behind them, itself among them; else 0.
fn own_words(first: &str, more: &[String]) -> usize
    ensures { result ≡ own_words first.now (map string_bytes more.now) }
{
    if first == "import" || first == "export" {
        if keeps_times(more) { 3 } else { 2 }
    } else if first == "check" {
        if asks_all(more) { 2 } else { 1 }
    } else {
        0
    }
}

/// Whether `--times` stands first.
fn keeps_times(words: &[String]) -> bool
    ensures { result ≡ keeps_times (map string_bytes words.now) }
{
    match words {
        [word, ..] => word.as_str() == "--times",
        [] => false,
    }
}

/// Whether `--all` stands first.
fn asks_all(words: &[String]) -> bool
    ensures { result ≡ asks_all (map string_bytes words.now) }
{
    match words {
        [word, ..] => word.as_str() == "--all",
        [] => false,
    }
}

/// The options that the words behind the own ones of this command are.
fn options_in(first: &str, words: &[String]) -> Option<Options>
    ensures { result ≡ options_in first.now (map string_bytes words.now) }
{
    match words {
        [] => Some(no_options()),
        [word] => option_of(first, word.as_str()),
        [word, other] => both_of(
            option_of(first, word.as_str()),
            option_of(first, other.as_str()),
        ),
        _ => None,
    }
}

/// The option that a word is, of a command that has it.
fn option_of(first: &str, word: &str) -> Option<Options>
    ensures { result ≡ option_of first.now word.now }
{
    if word == "--quiet" {
        Some(Options {
            is_quiet: true,
            leaves_out: false,
        })
    } else if word == "--leave-out" && first == "import" {
        Some(Options {
            is_quiet: false,
            leaves_out: true,
        })
    } else {
        None
    }
}

/// Two options that aren't the same.
fn both_of(one: Option<Options>, other: Option<Options>) -> Option<Options>
    ensures { result ≡ both_of one other }
{
    match (one, other) {
        (Some(one), Some(other)) if one.is_quiet != other.is_quiet => Some(Options {
            is_quiet: true,
            leaves_out: true,
        }),
        _ => None,
    }
}
