// The structures, in the order of their fields.

/// `fuse_in_header`
#[derive(Clone, Copy)]
pub struct RequestHeader {
    pub len: u32,
    pub opcode: u32,
    pub unique: u64,
    pub node: u64,
    pub uid: u32,
    pub gid: u32,
    pub pid: u32,
    pub extensions: u16,
    pub padding: u16,
}

/// `fuse_read_in` and `fuse_write_in`
#[derive(Clone, Copy)]
pub struct Span {
    pub handle: u64,
    pub offset: u64,
    pub size: u32,
    pub io_flags: u32,
    pub lock_owner: u64,
    pub flags: u32,
    pub padding: u32,
}

/// `fuse_rename2_in`
#[derive(Clone, Copy)]
pub struct RenameHead {
    pub directory: u64,
    pub flags: u32,
    pub padding: u32,
}

/// The moments of `fuse_setattr_in`
#[derive(Clone, Copy)]
pub struct Times {
    pub atime: u64,
    pub mtime: u64,
    pub ctime: u64,
    pub atime_nanos: u32,
    pub mtime_nanos: u32,
    pub ctime_nanos: u32,
}

/// `fuse_setattr_in`
#[derive(Clone, Copy)]
pub struct SetAttributes {
    pub valid: u32,
    pub padding: u32,
    pub handle: u64,
    pub size: u64,
    pub lock_owner: u64,
    pub times: Times,
    pub mode: u32,
    pub unused: u32,
    pub uid: u32,
    pub gid: u32,
    pub reserved: u32,
}

/// `fuse_attr`, what the kernel is told of a node
#[derive(Clone, Copy)]
pub struct NodeAttributes {
    pub node: u64,
    pub size: u64,
    pub blocks: u64,
    pub times: Times,
    pub mode: u32,
    pub links: u32,
    pub uid: u32,
    pub gid: u32,
    pub device: u32,
    pub block_size: u32,
    pub flags: u32,
}

/// `fuse_entry_out`, a name's node with its attributes
#[derive(Clone, Copy)]
pub struct Entry {
    pub node: u64,
    pub generation: u64,
    pub entry_valid: u64,
    pub attributes_valid: u64,
    pub entry_valid_nanos: u32,
    pub attributes_valid_nanos: u32,
    pub attributes: NodeAttributes,
}

/// `fuse_dirent`, with its name
#[derive(Clone, Copy)]
pub struct Row<'a> {
    pub node: u64,
    pub place: u64,
    pub kind: u32,
    pub name: &'a [u8],
}
