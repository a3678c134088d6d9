//! The closing of a service.
ghost use Rattle.std.specs.Prelude.{IfErr, IfOk};
ghost use Rattle.dataframes.specs.Closing.{IsClosed, IsMissed};

use crate::books::Books;
use crate::fault::FinishFault;
use crate::opening::Finished;
use crate::threads::Workers;
use df_hall::{Hall, Missing};
use df_versions::Naming;
use std::sync::Wait;
use std::sync::ledger::Ledger;

/// Closes the books behind the workers.
pub(crate) fn close<R: Wait, Acc: Ledger, Del: Ledger, J: Naming, L: Drop, W: Drop>(
    rt: &R,
    hall: Hall<Acc, Del, J>,
    books: Books<Acc, Del, J>,
    workers: Workers<L, W>,
) -> Result<Finished<L, W>, FinishFault>
    ensures totals { IfOk result (λ finished. IsClosed J.schemas finished.totals) }
    ensures refused { IfErr result (IsMissed J.schemas) }
{
    match hall.close(rt, books.into_desks()) {
        Ok((catalogue, totals)) => {
            drop(catalogue);
            let Workers { loaders, watchers } = workers;
            Ok(Finished {
                loaders,
                watchers,
                totals,
            })
        }
        Err(
            Missing {
                frame,
                hall,
                desks,
                told,
            },
        ) => {
            drop(told);
            drop(desks);
            hall.end(rt);
            drop(workers);
            Err(FinishFault::Missing(frame))
        }
    }
}
