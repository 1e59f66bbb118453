// The folder among the words of a copy.
ghost use Rattle.std.specs.Prelude.{◌≡◌, map, option_map};
ghost use Rattle.std.specs.String.{string_bytes};
ghost use Rattle.program_inputs.specs.HostWord.{folder_in, words_left, is_copy};

/// Takes the folder of a copy out: the word behind the first one, or behind `--times`.
pub(crate) fn take_folder(words: &mut Vec<String>) -> Option<String>
    ensures folder { option_map string_bytes result ≡ folder_in (map string_bytes words.old.items) }
    ensures words { map string_bytes words.new.items ≡ words_left (map string_bytes words.old.items) }
{
    if words.len() < 2 || !is_copy(words[0].as_str()) {
        return None;
    }
    if words[1].as_str() != "--times" {
        return Some(words.remove(1));
    }
    if words.len() < 3 {
        return None;
    }
    Some(words.remove(2))
}

/// Whether the word begins a copy.
fn is_copy(word: &str) -> bool
    ensures { result ≡ is_copy word.now }
{
    word == "import" || word == "export"
}
