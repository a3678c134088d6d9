//! Dashboards: readers of a service that never wait.
ghost use Rattle.std.specs.Prelude.{◌≡◌, ◌⊎◌, ◌<◌, IfErr, IfNone, IfOk, IfSome, IsTrue, Err, None, Ok, Some, false};
ghost use Rattle.std.specs.Arc.{arc_value};
ghost use Rattle.std.specs.Option.{option_copied};
ghost use mathlib.Core.List.{IsPrefix};
ghost use Rattle.df_state.specs.Answers.{AnswersMemoryLast};
ghost use Rattle.df_state.specs.Pictures as pictures;
ghost use Rattle.df_state.specs.declared.fault.CatalogueFault.TheVariants as catalogue_fault;
ghost use Rattle.df_versions.specs.Shown.{Shows};
ghost use Rattle.dataframes.specs.Dashboards.{EndsBy, GoesOnBehind, IsLater, columns_of_view};

use crate::service::ViewSchema;
use crate::view_rows::ViewRows;
use crate::view_table::ViewTable;
use df_catalogue::CatalogueFault;
use df_value::{List, Schema, index_of_name};
use df_versions::{Naming, Reader, Told, Version};
use std::alloc::Global;
use std::marker::{Model, PhantomData};
use std::sync::Arc;

/// Takes the versions of a service. Contracts see the states up to the newest version that was taken, the longest list of
/// states that was learnt, the number of the version that it gave last, and the views with which the service was opened.
pub struct Dashboard<J: Naming> {
    reader: Reader,
    given: Option<u64>,
    views: List<ViewSchema>,
    of: PhantomData<J>,
}

// A body that owns one drops it by a call.
impl<J: Naming> Drop for Dashboard<J> {
    fn drop(self) {
        let Dashboard {
            reader,
            given: _,
            views,
            of,
        } = self;
        drop(reader);
        drop(views);
        drop(of);
    }
}

impl<J: Naming> Model for Dashboard<J> {
    ghost use Rattle.std.specs.Prelude.{◌≡◌};
    ghost use Rattle.std.specs.Coded.{codes};
    ghost use Rattle.df_state.specs.contracts.state.State as state_type;
    ghost use Rattle.dataframes.specs.Dashboards.{DashboardParts};

    ghost Value = { DashboardParts };

    ghost coded = { Prim.hlevel (codes, state_type.the_row.coded) };

    ghost view = { λ d. record {
      taken = d.reader.1.0;
      learnt = d.reader.1.1;
      given = d.given;
      views = d.views;
    } };

    ghost invariant = { λ d. d.reader.0 ≡ J.book };
}

impl<J: Naming> Dashboard<J> {
    /// A dashboard over a reader of the service's history, with the views of the opened service.
    pub(crate) fn over(reader: Reader, views: List<ViewSchema>) -> Dashboard<J>
        requires { reader.0 ≡ J.book }
        ensures taken { result.taken ≡ reader.1.0 }
        ensures learnt { result.learnt ≡ reader.1.1 }
        ensures given { result.given ≡ None }
        ensures views { result.views ≡ views }
    {
        Dashboard {
            reader,
            given: None,
            views,
            of: PhantomData,
        }
    }

    /// The newest version. Its history begins with all that this dashboard took and learnt. None once the service has
    /// ended. It waits for nobody and takes no memory.
    pub fn newest(&mut self) -> Option<Arc<Version, Global>>
        ensures learnt { self.new.learnt ≡ self.old.learnt }
        ensures views { self.new.views ≡ self.old.views }
        ensures later { IfSome result (λ v. IsLater self.old self.new) }
        ensures shows { IfSome result (λ v. Shows self.new.taken (arc_value v)) }
        ensures given { IfSome result (λ v. self.new.given ≡ Some (arc_value v).0) }
        ensures none { IfNone result (self.new ≡ self.old) }
    {
        let version = self.reader.snapshot()?;
        let number = version.number();
        self.given = Some(number);
        Some(version)
    }

    /// Whether there is a newer version than the one that this dashboard gave last, or, where it gave none, one at all. Behind
    /// true the version that it gives next is such a one. It waits for nobody and takes no memory.
    pub fn changed(&mut self) -> bool
        ensures learnt { self.new.learnt ≡ self.old.learnt }
        ensures given { self.new.given ≡ self.old.given }
        ensures views { self.new.views ≡ self.old.views }
        ensures newer { IsTrue result → IsLater self.old self.new
            × GoesOnBehind self.old.given self.new.taken }
        ensures none { result ≡ false → (self.new ≡ self.old)
            ⊎ (IsLater self.old self.new × EndsBy self.old.given self.new.taken) }
    {
        let Some(version) = self.reader.snapshot() else {
            return false;
        };
        let number = version.number();
        drop(version);
        match self.given {
            Some(given) => given < number,
            None => true,
        }
    }

    /// The newest version, if it is a later one than that of this number.
    pub fn newer_than(&mut self, number: u64) -> Option<Arc<Version, Global>>
        ensures learnt { self.new.learnt ≡ self.old.learnt }
        ensures views { self.new.views ≡ self.old.views }
        ensures later { IfSome result (λ v. IsLater self.old self.new) }
        ensures shows { IfSome result (λ v. Shows self.new.taken (arc_value v)) }
        ensures given { IfSome result (λ v. self.new.given ≡ Some (arc_value v).0) }
        ensures newer { IfSome result (λ v. number < (arc_value v).0) }
        ensures none { IfNone result (self.new.given ≡ self.old.given) }
        ensures grown { IsPrefix self.old.taken self.new.taken }
    {
        let version = self.reader.snapshot()?;
        if version.number() > number {
            self.given = Some(version.number());
            Some(version)
        } else {
            drop(version);
            None
        }
    }

    /// Learns what was told, and gives the newest version, if there is a later one than that which this dashboard gave last, or,
    /// where it gave none, one at all. It waits for nobody and takes no memory.
    pub fn follow(&mut self, told: Option<Told<J>>) -> Option<Arc<Version, Global>>
        ensures views { self.new.views ≡ self.old.views }
        ensures learnt { IsPrefix self.old.learnt self.new.learnt
            × IfSome told (λ t. IsPrefix t self.new.learnt) }
        ensures longest { (self.new.learnt ≡ self.old.learnt) ⊎ (told ≡ Some self.new.learnt) }
        ensures later { IfSome result (λ v. IsPrefix self.old.taken self.new.taken
            × IsPrefix self.new.learnt self.new.taken) }
        ensures shows { IfSome result (λ v. Shows self.new.taken (arc_value v)) }
        ensures given { IfSome result (λ v. self.new.given ≡ Some (arc_value v).0) }
        ensures newer { IfSome result (λ v. IfSome self.old.given (λ n. n < (arc_value v).0)) }
        ensures none { IfNone result (self.new.given ≡ self.old.given) }
        ensures grown { IsPrefix self.old.taken self.new.taken }
    {
        if let Some(told) = told {
            self.learn(told);
        }
        self.next()
    }

    // The newest version, if it is a later one than that which was given last.
    fn next(&mut self) -> Option<Arc<Version, Global>>
        ensures learnt { self.new.learnt ≡ self.old.learnt }
        ensures views { self.new.views ≡ self.old.views }
        ensures later { IfSome result (λ v. IsLater self.old self.new) }
        ensures shows { IfSome result (λ v. Shows self.new.taken (arc_value v)) }
        ensures given { IfSome result (λ v. self.new.given ≡ Some (arc_value v).0) }
        ensures newer { IfSome result (λ v. IfSome self.old.given (λ n. n < (arc_value v).0)) }
        ensures none { IfNone result (self.new.given ≡ self.old.given) }
        ensures grown { IsPrefix self.old.taken self.new.taken }
    {
        match self.given {
            Some(given) => self.newer_than(given),
            None => self.newest(),
        }
    }

    /// The columns of a view with which the service was opened, by name, with their types; None of any other view.
    pub fn view_schema(&self, name: &str) -> Option<&Schema>
        ensures { option_copied result ≡ columns_of_view name.now self.now.views }
    {
        schema_named(self.views.as_slice(), name)
    }

    /// The rows of a view in a version, with the view's columns. Refused is a view with which the service was not opened.
    pub fn view(
        &self,
        alloc: Global,
        version: &Version,
        name: &str,
    ) -> Result<ViewRows<'_>, CatalogueFault>
        ensures rows { IfOk result (λ view.
            pictures.view_rows_in version.now.1 name.now ≡ Ok view.rows) }
        ensures columns { IfOk result (λ view.
            columns_of_view name.now self.now.views ≡ Some view.schema.now) }
        ensures refused { IfErr result (λ fault.
            ((columns_of_view name.now self.now.views ≡ None) × (fault ≡ catalogue_fault.NoView))
            ⊎ AnswersMemoryLast (pictures.view_rows_in version.now.1 name.now) (Err fault)) }
    {
        match self.view_schema(name) {
            Some(schema) => ViewRows::read(alloc, version, name, schema),
            None => Err(CatalogueFault::NoView),
        }
    }

    /// The table of a view in a version, with the view's columns: no row is copied. Refused is a view with which the service was
    /// not opened, and one that the version has not.
    pub fn table<'a>(
        &'a self,
        version: &'a Version,
        name: &str,
    ) -> Result<ViewTable<'a>, CatalogueFault>
        ensures rows { IfOk result (λ view.
            pictures.view_rows_in version.now.1 name.now ≡ Ok (pictures.rows_in view.table.now)) }
        ensures columns { IfOk result (λ view.
            columns_of_view name.now self.now.views ≡ Some view.schema.now) }
        ensures refused { IfErr result (λ fault. (fault ≡ catalogue_fault.NoView)
            × ((columns_of_view name.now self.now.views ≡ None)
            ⊎ (pictures.view_rows_in version.now.1 name.now ≡ Err fault))) }
    {
        let Some(schema) = self.view_schema(name) else {
            return Err(CatalogueFault::NoView);
        };
        match version.view_table(name) {
            Some(table) => Ok(ViewTable { schema, table }),
            None => Err(CatalogueFault::NoView),
        }
    }

    /// From now on each version that is taken has at least the change that was told. It waits for nobody and takes no
    /// memory.
    pub fn learn(&mut self, told: Told<J>)
        ensures same { self.new.taken ≡ self.old.taken }
        ensures given { self.new.given ≡ self.old.given }
        ensures views { self.new.views ≡ self.old.views }
        ensures told { IsPrefix self.old.learnt self.new.learnt × IsPrefix told self.new.learnt }
        ensures longest { (self.new.learnt ≡ self.old.learnt) ⊎ (self.new.learnt ≡ told) }
    {
        self.reader.learn(told);
    }
}

// The columns of the view of this name.
fn schema_named<'a>(views: &'a [ViewSchema], name: &str) -> Option<&'a Schema>
    ensures { option_copied result ≡ columns_of_view name.now views.now }
{
    let at = index_of_name(views, name)?;
    Some(&views[at].1)
}
