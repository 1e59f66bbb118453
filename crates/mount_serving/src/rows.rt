// Requests that list directories.

use crate::asking::ask;
use crate::attributes::kind_bits;
use crate::looking::tell_entry;
use crate::paths::{copy_of, is_own};
use crate::state::State;
use answers::Host;
use fs_model::{Command, Kind, Reply, RowList};
use fuse_messages::{
    ENTRY_LEN, ErrorNumber, MAX_WRITE, REPLY_HEADER, ROW_HEADER, Row, Span, put_no_entry,
    put_opened, put_row,
};
use std::alloc::Global;

/// The number that stands for one that isn't known.
const UNKNOWN_NODE: u64 = 0xffff_ffff;

/// Opens a directory: its rows stay as they are now until it is closed.
pub(crate) fn open_directory<H: Host>(
    alloc: Global,
    host: &mut H,
    state: &mut State,
    node: u64,
    out: &mut Vec<u8>,
) -> Result<(), ErrorNumber>
    requires ready { H.hosting.ready host.old }
    ensures ready { H.hosting.ready host.new }
{
    let path = state.nodes.path(alloc, node)?;
    match ask(alloc, host, state, &Command::List(path))? {
        Reply::Rows(rows) => {
            let handle = state.handles.open(rows)?;
            put_opened(out, handle, 0)?;
            Ok(())
        }
        _ => Err(ErrorNumber::Io),
    }
}

/// What is listed: a directory, from which place on, in how many bytes, and whether attributes are wanted.
#[derive(Clone, Copy)]
pub(crate) struct Listing<'a> {
    pub node: u64,
    pub span: &'a Span,
    pub plus: bool,
}

/// Appends rows from the place on, as many as find room. An error after the first row comes with the next request, but not one after a
/// violation: the kernel would count the rows before it otherwise.
pub(crate) fn read_directory<H: Host>(
    alloc: Global,
    host: &mut H,
    state: &mut State,
    listing: &Listing<'_>,
    out: &mut Vec<u8>,
) -> Result<(), ErrorNumber>
    requires ready { H.hosting.ready host.old }
    ensures ready { H.hosting.ready host.new }
{
    'rows: for i in 0..u64::from(MAX_WRITE) {
        let place = listing.span.offset.saturating_add(i);
        let before = out.len();
        match list_row(alloc, host, state, listing, place, out) {
            Ok(true) => {}
            Ok(false) => return Ok(()),
            Err(_) if before > REPLY_HEADER && !host.refuses() => {
                out.truncate(before);
                return Ok(());
            }
            Err(error) => return Err(error),
        }
    }
    Ok(())
}

/// Appends the row of this place. False where there is none, or no room.
fn list_row<H: Host>(
    alloc: Global,
    host: &mut H,
    state: &mut State,
    listing: &Listing<'_>,
    place: u64,
    out: &mut Vec<u8>,
) -> Result<bool, ErrorNumber>
    requires ready { H.hosting.ready host.old }
    ensures ready { H.hosting.ready host.new }
{
    let Some(rows) = state.handles.rows(listing.span.handle) else {
        return Err(ErrorNumber::BadHandle);
    };
    let Some((kind, name)) = row_at(alloc, rows, place)? else {
        return Ok(false);
    };
    if is_own(listing.node, name.as_slice()) {
        return Ok(true);
    }
    if !has_room(out.len(), listing, name.len()) {
        return Ok(false);
    }
    let node = list_node(alloc, host, state, listing, place, name.as_slice(), out)?;
    put_named_row(out, node, place, kind, name.as_slice())?;
    Ok(true)
}

/// The kind and the name at this place of a directory, in which the directory itself and the one above it are the first.
fn row_at(
    alloc: Global,
    rows: &RowList,
    place: u64,
) -> Result<Option<(Kind, Vec<u8>)>, ErrorNumber> {
    if place == 0 {
        return Ok(Some((Kind::Directory, copy_of(alloc, b".")?)));
    }
    if place == 1 {
        return Ok(Some((Kind::Directory, copy_of(alloc, b"..")?)));
    }
    match rows.as_slice().get((place - 2) as usize) {
        Some(row) => Ok(Some((row.kind, copy_of(alloc, row.name.as_slice())?))),
        None => Ok(None),
    }
}

/// Whether a row with such a name finds room behind so many bytes.
fn has_room(len: usize, listing: &Listing<'_>, name_len: usize) -> bool {
    let most = REPLY_HEADER + listing.span.size.min(MAX_WRITE) as usize;
    let entry = if listing.plus { ENTRY_LEN } else { 0 };
    // (up to 7 zeros fill the name)
    let size = entry + ROW_HEADER + name_len.min(255) + 7;
    len <= most && most - len >= size
}

/// The number of a row's node, which the kernel is told of where attributes are wanted. A row that went since is listed with no node.
fn list_node<H: Host>(
    alloc: Global,
    host: &mut H,
    state: &mut State,
    listing: &Listing<'_>,
    place: u64,
    name: &[u8],
    out: &mut Vec<u8>,
) -> Result<u64, ErrorNumber>
    requires ready { H.hosting.ready host.old }
    ensures ready { H.hosting.ready host.new }
{
    if place < 2 {
        if listing.plus {
            put_no_entry(out)?;
        }
        return Ok(if place == 0 {
            listing.node
        } else {
            UNKNOWN_NODE
        });
    }
    if !listing.plus {
        return Ok(known_number(state, listing.node, name));
    }
    let before = out.len();
    match tell_entry(alloc, host, state, listing.node, name, out) {
        Ok(node) => Ok(node),
        Err(ErrorNumber::NoEntry) => {
            out.truncate(before);
            put_no_entry(out)?;
            Ok(UNKNOWN_NODE)
        }
        Err(error) => Err(error),
    }
}

fn known_number(state: &State, parent: u64, name: &[u8]) -> u64 {
    match state.nodes.number(parent, name) {
        Some(node) => node,
        None => UNKNOWN_NODE,
    }
}

fn put_named_row(
    out: &mut Vec<u8>,
    node: u64,
    place: u64,
    kind: Kind,
    name: &[u8],
) -> Result<(), ErrorNumber> {
    if name.len() > 255 {
        return Err(ErrorNumber::NameTooLong);
    }
    let row = Row {
        node,
        place: place.saturating_add(1),
        kind: kind_bits(kind) >> 12,
        name,
    };
    put_row(out, &row)?;
    Ok(())
}
