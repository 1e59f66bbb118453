// A command that has to be done.
ghost use Rattle.std.specs.Prelude.{◌≡◌, [], ◌∷◌, OnOk};
ghost use Rattle.fs_model.specs.Fitting.{IsFitting};
ghost use Rattle.copy_laws.specs.Ends.{path_of, counted};
ghost use Rattle.copy_row.specs.Rows.{IsChange, Asks, StopsBy, NeverHost, refusal};

use crate::stop::Stop;
use crate::totals::count;
use copy_laws::{Asker, Stopped, Totals};
use fs_model::{Command, FsError, Reply};
use std::alloc::Global;

/// Asks a command that answers Done, and counts it.
pub fn ask_done<A: Asker>(
    alloc: Global,
    asker: &mut A,
    command: &Command,
    totals: &mut Totals,
) -> Result<(), Stop>
    requires ready { A.asking.ready asker.old }
    requires fits { IsFitting command.now }
    requires change { IsChange command.now }
    ensures ready { A.asking.ready asker.new }
    ensures asks { Asks A.asking asker.old asker.new (path_of command.now) (command.now ∷ []) result }
    ensures stops { StopsBy (A.asking.stops asker.old) (A.asking.stops asker.new) result }
    ensures counts { OnOk result (totals.new ≡ counted totals.old (command.now ∷ [])) }
    ensures host { NeverHost result }
{
    match asker.ask(alloc, command) {
        Ok(reply) => match refusal_of(&reply) {
            None => {
                count(totals, command);
                Ok(())
            }
            Some(error) => Err(Stop::Refused(error)),
        },
        Err(Stopped) => Err(Stop::Stopped),
    }
}

/// The error that a reply is.
pub fn refusal_of(reply: &Reply) -> Option<FsError>
    ensures { result ≡ refusal reply.now }
{
    match reply {
        Reply::Error(error) => Some(*error),
        _ => None,
    }
}
