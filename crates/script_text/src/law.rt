// What holds of all lines, and of all texts of replies.
ghost use Rattle.script_text.specs.Forms.{RefusesUnformed};
ghost use Rattle.script_text.specs.Shown.{HasOneReading};

/// The texts of replies, one after another, tell the replies: no two lists of replies print alike. It is
/// stated of numbers, moments and bytes that are within their types, as those of every reply are.
pub fn texts_have_one_reading()
    ensures { HasOneReading }
{}

/// A line is bad exactly where it has no form: it is too long, has an empty word, no command's name, or
/// words of other forms than follow that name. Paths and targets that are refused have their own errors.
pub fn bad_lines_have_no_form()
    ensures { RefusesUnformed }
{}
