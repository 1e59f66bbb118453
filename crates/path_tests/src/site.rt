// Blobs in memory that show a tree, beside the tree in memory, and commands on both.
use block_id::{BlockId, Fail as Failure, Why};
use fs_model::{Command, Moment, Reply};
use memory_stores::MapBlobs;
use memory_stores::blob_api::Blobs;
use path_layer::path_rows::empty_root;
use path_layer::perform_on_blobs;
use plain_tree::PlainTree;
use script_text::{parse_line, print_reply};
use std::alloc::Global;
use std::test::Fail;

/// The blobs, their root's id, and the tree in memory.
#[derive(Drop)]
pub struct Site {
    pub blobs: MapBlobs,
    pub root: BlockId,
    tree: PlainTree,
}

/// The empty tree, in blobs and in memory.
pub fn empty_site(alloc: Global) -> Result<Site, Fail> {
    let tree = PlainTree::new(alloc);
    let mut blobs = MapBlobs::new(alloc, [1; 32]);
    let bytes = empty_root(alloc)?;
    if bytes.len() > 100 {
        return Err(Fail::from("a header alone"));
    }
    let root = blobs.create(alloc, &bytes)?;
    Ok(Site { blobs, root, tree })
}

/// The command of a line.
pub fn parsed(alloc: Global, line: &str) -> Result<Command, Fail> {
    match parse_line(alloc, line.as_bytes()) {
        Ok(command) => Ok(command),
        Err(_) => Err(Fail::from("a line of the language")),
    }
}

/// A reply as its lines.
pub fn text_of(alloc: Global, reply: &Reply) -> Result<String, Fail> {
    let mut text = Vec::new(alloc);
    print_reply(reply, &mut text)?;
    Ok(String::from_utf8(text)?)
}

/// What the blobs answer to a command that fits.
fn performed(
    alloc: Global,
    site: &mut Site,
    now: Moment,
    command: &Command,
) -> Result<Result<Reply, Failure>, Fail> {
    if command.fits() {
        Ok(perform_on_blobs(alloc, &mut site.blobs, &site.root, now, command))
    } else {
        Err(Fail::from("a command that fits"))
    }
}

/// What the tree in memory answers to a command that fits.
fn stepped(tree: &mut PlainTree, now: Moment, command: &Command) -> Result<Reply, Fail> {
    if command.fits() {
        Ok(tree.step(now, command)?)
    } else {
        Err(Fail::from("a command that fits"))
    }
}

/// The text of what the blobs answered, or that they are no tree.
fn text_shown(alloc: Global, answer: &Result<Reply, Failure>) -> Result<String, Fail> {
    match answer {
        Ok(reply) => text_of(alloc, reply),
        Err(Failure::Violation(Why::Structure)) => Ok(String::from_str(alloc, "no tree\n")?),
        Err(_) => Err(Fail::from("a command that failed")),
    }
}

/// What the blobs answer to a command, or that they are no tree.
pub fn shown(
    alloc: Global,
    site: &mut Site,
    now: Moment,
    command: &Command,
) -> Result<String, Fail> {
    let answer = performed(alloc, site, now, command)?;
    text_shown(alloc, &answer)
}

/// What the tree in memory answers to a command.
fn told(
    alloc: Global,
    tree: &mut PlainTree,
    now: Moment,
    command: &Command,
) -> Result<String, Fail> {
    let reply = stepped(tree, now, command)?;
    text_of(alloc, &reply)
}

/// What a command is answered, which is the same in blobs and in memory.
pub fn answered(
    alloc: Global,
    site: &mut Site,
    now: Moment,
    command: &Command,
) -> Result<String, Fail> {
    let told = told(alloc, &mut site.tree, now, command)?;
    let reply = shown(alloc, site, now, command)?;
    if reply.as_str() == told.as_str() {
        Ok(reply)
    } else {
        Err(Fail::new(format_args!("blobs answer {reply:?}, and the tree in memory {told:?}")))
    }
}

/// What a line is answered, which is the same in blobs and in memory.
pub fn answer(alloc: Global, site: &mut Site, now: Moment, line: &str) -> Result<String, Fail> {
    answered(alloc, site, now, &parsed(alloc, line)?)
}
