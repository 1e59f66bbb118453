// Stories: texts of orders that a stage takes, one after another.
use crate::copies::play_copy;
use crate::memory::play_memory;
use crate::runs::play_runs;
use std::test::Fail;

/// One order: what it is, what it is about, and the text behind its colon.
#[derive(Drop)]
pub struct Order<'a> {
    pub name: &'a str,
    pub subject: &'a str,
    pub text: &'a str,
}

/// What takes the orders of a story.
pub trait Stage {
    /// Whether it comes out as the order says, or None where that is no order.
    fn takes(&mut self, order: &Order<'_>) -> Option<bool>;
}

/// The parts of a line: `gets 4 one: shor`.
fn order_of(line: &str) -> Order<'_> {
    let (front, text) = line.split_once(':').unwrap_or((line, ""));
    let (name, subject) = front.split_once(' ').unwrap_or((front, ""));
    Order {
        name,
        subject,
        text: text.strip_prefix(' ').unwrap_or(text),
    }
}

/// Whether a line comes out as it says: behind `not`, that its order doesn't.
fn comes_out<S: Stage>(stage: &mut S, line: &str) -> bool {
    match line.strip_prefix("not ") {
        Some(order) => stage.takes(&order_of(order)) == Some(false),
        None => stage.takes(&order_of(line)) == Some(true),
    }
}

/// Has the stage take the orders of these lines.
pub fn play<S: Stage>(stage: &mut S, lines: &str) -> Result<(), Fail> {
    for line in lines.lines() {
        if !comes_out(stage, line) {
            return Err(Fail::new(format_args!("it came out otherwise: {line:?}")));
        }
    }
    Ok(())
}

/// A story on its stage. Behind its title stand its three places, where they are others than the stage's own.
fn is_so(rt: &HostRuntime, stage: &str, story: &str) -> Result<(), Fail> {
    let (heading, lines) = story.split_once('\n').ok_or("a story has a title")?;
    let (_, places) = heading.split_once(" | ").unwrap_or((heading, ""));
    match stage {
        "runs" => play_runs(rt, places, lines),
        "copy" => play_copy(rt, places, lines),
        _ => play_memory(rt.alloc(), lines),
    }
}

/// Tells these stories on the stage `runs`, `copy` or `memory`. A story begins with `# ` and its title, which is printed where
/// it isn't so. Each line below is an order:
///
///     # of two runs one has the folder | b one two
///     begin
///     puts config: first
///     second
///     fails config
pub fn tell(rt: &HostRuntime, stage: &str, stories: &str) -> Result<(), Fail> {
    for story in stories.split("# ") {
        if !story.is_empty() {
            let found = is_so(rt, stage, story);
            if found.is_err() {
                let (title, _) = story.split_once('\n').unwrap_or((story, ""));
                let _ = println!(rt; "at {title}");
            }
            found?;
        }
    }
    Ok(())
}
