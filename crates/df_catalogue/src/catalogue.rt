//! The catalogue: frames, views and books.
ghost use Rattle.std.specs.Prelude.{◌≡◌, ◌≢◌, ◌≤◌, ◌*◌, [], None, Some, IfErr, IfOk, OnOk, false, length};
ghost use Rattle.df_state.specs.New as new_spec;
ghost use Rattle.df_state.specs.Desks as desks_spec;
ghost use Rattle.df_state.specs.Ledgers as ledgers;
ghost use Rattle.df_value.specs.Limits as limits;
ghost use Rattle.df_state.specs.States.{opening_of, IsLegal};
ghost use Rattle.df_delta.specs.Work.{no_work};

use crate::staging::Staging;
use crate::views::View;
use df_expr::Meter;
use df_frame::Frame;
use df_state::{Desk, NewFault, audit_all, check_schemas, empty_frames, open_desks};
use df_value::{List, Schema};
use std::alloc::Global;
use std::marker::Model;
use std::sync::ledger::{Blank, Book, Ledger, Share};

/// Frames of rows and registered views, each of which has at every moment the table that its plan
/// gives over the frames. Contracts see the [`State`](crate::State), the work of the last change
/// of rows, and what is kept of what it did to each view.
///
/// `Acc` and `Del` are the ledgers of all rows that were accepted and deleted: a desk of another
/// catalogue has another type.
pub struct Catalogue<Acc: Ledger, Del: Ledger> {
    pub(crate) frames: Vec<Frame>,
    pub(crate) views: Vec<View>,
    pub(crate) work: Meter,
    pub(crate) staged: Option<Staging>,
    // Whether each view keeps what the last change did to its table.
    pub(crate) keeps: bool,
    pub(crate) accepted: Book<Acc>,
    pub(crate) deleted: Book<Del>,
    pub(crate) accepted_of_no_desk: Share<Acc>,
    pub(crate) deleted_of_no_desk: Share<Del>,
}

// A body that owns one drops it by a call.
impl<Acc: Ledger, Del: Ledger> Drop for Catalogue<Acc, Del> {
    fn drop(self) {
        let Catalogue {
            frames,
            views,
            work,
            staged,
            keeps: _,
            accepted,
            deleted,
            accepted_of_no_desk,
            deleted_of_no_desk,
        } = self;
        drop(frames);
        drop(views);
        drop(work);
        drop(staged);
        drop(accepted);
        drop(deleted);
        drop(accepted_of_no_desk);
        drop(deleted_of_no_desk);
    }
}

impl<Acc: Ledger, Del: Ledger> Model for Catalogue<Acc, Del> {
    ghost use Rattle.df_state.specs.declared.state.CatalogueParts.{CatalogueParts};
    ghost use Rattle.df_frame.specs.FrameParts.{schemas_of, states_of};
    ghost use Rattle.df_catalogue.specs.LiveViews.{changes_kept};
    ghost use Rattle.df_catalogue.specs.Parts.{state_of};
    ghost use Rattle.df_catalogue.specs.Staging.{IsSoundCatalogue, staged_parts};
    ghost use Rattle.df_delta.specs.contracts.delta.Delta as delta_type;
    ghost use Rattle.std.specs.Coded.{codes};
    ghost use Rattle.std.specs.Prelude.{option_map, vec_capacity};
    ghost use Rattle.df_plan.specs.contracts.plan.Plan as plan_type;

    ghost Value = { CatalogueParts };

    ghost coded = { Prim.hlevel (codes, plan_type.the_row.coded, delta_type.the_row.coded) };

    ghost view = { λ c. record {
      state = state_of (schemas_of c.frames.items) (states_of c.frames.items) c.views.items;
      work = c.work;
      staged = option_map (staged_parts c.frames.items c.views.items c.work) c.staged;
      keeps = c.keeps;
      changes = changes_kept c.views.items;
    } };

    ghost invariant = { λ c.
        IsSoundCatalogue c.frames.items c.views.items (vec_capacity c.views) c.staged
        c.accepted.total c.deleted.total
        (c.accepted_of_no_desk.parts, c.accepted_of_no_desk.amount)
        (c.deleted_of_no_desk.parts, c.deleted_of_no_desk.amount) };
}

impl<Acc: Ledger, Del: Ledger> Catalogue<Acc, Del> {
    /// A catalogue of empty frames with these schemas, and the first desk of each frame, in order.
    /// Each desk has 65,536 parts of both ledgers; the parts of no desk stay here.
    ///
    /// Refused are, in this order: more than 8 frames; a frame with a column of another type than
    /// Int, Text and Bool (the least such index is named); the refusal of memory.
    pub fn new(
        alloc: Global,
        accepted: Blank,
        deleted: Blank,
        schemas: List<Schema>,
    ) -> Result<(Catalogue<Acc, Del>, Vec<Desk<Acc, Del>>), NewFault>
        requires accepted_name { accepted.name ≡ Acc.name }
        requires accepted_parts { (accepted.parts ≡ Acc.parts)
            × (accepted.parts ≡ ledgers.parts_of_ledger) }
        requires deleted_name { deleted.name ≡ Del.name }
        requires deleted_parts { (deleted.parts ≡ Del.parts)
            × (deleted.parts ≡ ledgers.parts_of_ledger) }
        ensures sound { OnOk result (new_spec.new_fault schemas ≡ None) }
        ensures opening { IfOk result (λ made. made.0.state ≡ opening_of schemas) }
        ensures work { IfOk result (λ made. made.0.work ≡ no_work) }
        ensures staged { IfOk result (λ made. made.0.staged ≡ None) }
        ensures keeps { IfOk result (λ made. made.0.keeps ≡ false) }
        ensures changes { IfOk result (λ made. made.0.changes ≡ []) }
        ensures legal { IfOk result (λ made. IsLegal made.0.state) }
        ensures desks { IfOk result (λ made.
            made.1.items ≡ desks_spec.first_desks (length schemas)) }
        ensures in_order { IfOk result (λ made. desks_spec.AreInOrder made.1.items made.0.state) }
        ensures refused { IfErr result (λ fault. fault ≢ NewFault.Memory →
            new_spec.new_fault schemas ≡ Some fault) }
        ensures memory_last { IfErr result (λ fault.
            fault ≡ NewFault.Memory → new_spec.new_fault schemas ≡ None) }
    {
        check_schemas(schemas.as_slice())?;
        let count = schemas.len();
        let frames = empty_frames(alloc, schemas)?;
        let (accepted, mut accepted_of_no_desk) = accepted.open::<Acc>();
        let (deleted, mut deleted_of_no_desk) = deleted.open::<Del>();
        let desks = open_desks(
            alloc,
            count,
            &mut accepted_of_no_desk,
            &mut deleted_of_no_desk,
        )?;
        let catalogue = Catalogue {
            frames,
            views: Vec::new(alloc),
            work: Meter::new(),
            staged: None,
            keeps: false,
            accepted,
            deleted,
            accepted_of_no_desk,
            deleted_of_no_desk,
        };
        Ok((catalogue, desks))
    }

    /// The book of all rows that were accepted, over all frames.
    pub fn accepted_book(&self) -> &Book<Acc>
        ensures total { result.now.total ≡ desks_spec.accepted_in self.now.state }
        ensures legal { IsLegal self.now.state }
    {
        &self.accepted
    }

    /// The book of all rows that were deleted, over all frames.
    pub fn deleted_book(&self) -> &Book<Del>
        ensures total { result.now.total ≡ desks_spec.deleted_in self.now.state }
        ensures legal { IsLegal self.now.state }
    {
        &self.deleted
    }

    /// Tells that no more was accepted and deleted through a desk than over all frames, of which
    /// each accepts at most 1,048,576 rows.
    pub fn audit(&mut self, desk: &mut Desk<Acc, Del>)
        ensures same { self.new ≡ self.old }
        ensures desk { desk.new ≡ desk.old }
        ensures accepted { desk.new.accepted ≤ desks_spec.accepted_in self.new.state }
        ensures deleted { desk.new.deleted ≤ desks_spec.deleted_in self.new.state }
        ensures few_accepted { desks_spec.accepted_in self.new.state
            ≤ limits.most_frames * limits.most_rows_of_frame }
        ensures few_deleted { desks_spec.deleted_in self.new.state
            ≤ limits.most_frames * limits.most_rows_of_frame }
    {
        desk.audit(&mut self.accepted, &mut self.deleted);
    }

    /// Tells that these desks together count no more rows than were accepted and deleted over all
    /// frames, and exactly these where they have every part of the ledgers that the first desks
    /// were given.
    ///
    /// Each desk takes a further level of a recursion, so the list is to be short, as one desk for
    /// each frame.
    pub fn audit_all(&mut self, desks: &mut [Desk<Acc, Del>])
        ensures same { self.new ≡ self.old }
        ensures desks { desks.new ≡ desks.old }
        ensures books { desks_spec.AgreeWithBooks desks.new self.new.state }
    {
        audit_all(
            desks,
            &mut self.accepted,
            &mut self.deleted,
            &mut self.accepted_of_no_desk,
            &mut self.deleted_of_no_desk,
        );
    }
}
