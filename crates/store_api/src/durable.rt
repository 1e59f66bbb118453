// A store whose changes wait until they are written out.
ghost use Rattle.std.specs.Prelude.{◌≡◌, min, IfOk};
ghost use Rattle.outside.specs.Causes.{GetHasCause};
ghost use Rattle.store_api.specs.Durables.{Durables, Records, Enduring, MayBeLeast};
ghost use Rattle.store_api.specs.Holdings.{Stays};
ghost use Rattle.store_api.specs.Leaving.{StaysMeant, WritesList, WrittenRecords, ListsConfig, ConfigRecords, SetsLeast};
ghost use Rattle.store_api.specs.Lists.{waiting_bytes, waiting_weight, MayConfigure};

use crate::BlocksMut;
use block_id::Memory;
use outside::GetFail;
use std::alloc::Global;

/// A store over a directory: its changes are listed in its record until they are written out.
pub trait Durable: BlocksMut {
    ghost durables: { Durables Self };

    ghost records: { Records };

    /// How many bytes wait to be put, or the greatest number where they are more.
    fn buffered(&self) -> usize
        ensures { result ≡ min (waiting_bytes (durables.list self.now)) usize.MAX };

    /// What the list weighs, or the greatest number where it is more: the bytes to be put, and 64 for each removal.
    fn weight(&self) -> usize
        ensures { result ≡ min (waiting_weight (durables.list self.now)) usize.MAX };

    /// The local record, with the unwritten list or with an empty one. A store may ready what waits for it.
    fn state_bytes(&mut self, alloc: Global, with_list: bool) -> Result<Vec<u8>, Memory>
        requires { Self.meanings.intact self.old }
        ensures bytes { IfOk result (λ bytes. bytes.items ≡ durables.local_record_of self.old with_list) }
        ensures same { self.new ≡ self.old };

    /// Has the configuration's file wait with these bytes.
    fn put_config(&mut self, alloc: Global, bytes: Vec<u8>) -> Result<(), Memory>
        requires intact { Self.meanings.intact self.old }
        requires bytes { MayConfigure bytes.items }
        ensures lists { ListsConfig Self.meanings durables bytes.items self.old self.new result }
        ensures keeps { ConfigRecords durables records bytes.items self.old self.new result }
        ensures stays { Stays Self.holdings self.old self.new }
        ensures meant { StaysMeant Self.meanings self.old self.new }
        ensures faults { Self.meanings.faults self.new ≡ Self.meanings.faults self.old };

    /// Writes the unwritten list out, in order. What isn't done at the first error stays in it.
    fn write_out(&mut self, alloc: Global) -> Result<(), GetFail>
        requires { Self.meanings.intact self.old }
        ensures writes { WritesList durables self.old self.new result }
        ensures keeps { WrittenRecords Self.meanings Self.holdings durables records self.old self.new }
        ensures stays { Stays Self.holdings self.old self.new }
        ensures meant { StaysMeant Self.meanings self.old self.new }
        ensures cause { GetHasCause (Self.meanings.faults self.old) (Self.meanings.faults self.new) result };

    /// Sets the least format of block files, 1 or 2: files of an older one aren't taken from here on. It takes no memory and
    /// makes no call.
    fn set_least(&mut self, least: u8)
        requires intact { Self.meanings.intact self.old }
        requires may { MayBeLeast durables Self.holdings self.old least }
        ensures sets { SetsLeast durables records least self.old self.new }
        ensures stays { Stays Self.holdings self.old self.new }
        ensures meant { StaysMeant Self.meanings self.old self.new }
        ensures faults { Self.meanings.faults self.new ≡ Self.meanings.faults self.old };

    ghost enduring: { Enduring Self.meanings Self.holdings Self.applied durables records };
}
