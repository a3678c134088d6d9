//! Tables by join key, in which each look-up is counted.
ghost use Rattle.std.specs.Prelude.{◌≡◌, ◌+◌, ◌≤◌, ◌<◌, ◌^◌, cond, None, Some, OnOk};
ghost use Rattle.std.specs.Option.{option_copied};
ghost use Rattle.indexmap.specs.IndexMap.{get, spare, index_map_len, IsUnchanged};
ghost use Rattle.df_value.specs.Rows.{row_eq};
ghost use Rattle.df_join.specs.Rules.{Cells};
ghost use Rattle.df_delta.specs.RowKeys.{key_cells};
ghost use Rattle.df_join.specs.Keyed.{state_of, unless_empty};

use crate::tree_table::TreeTable;
use df_delta::RowKey;
use df_expr::Counter;
use df_ops::key_of;
use df_value::Row;
use indexmap::IndexMap;
use std::alloc::{AllocError, Global};

/// A table for each of some keys. Each look-up of a key is a probe, and is counted; to put a table under a key is none.
pub struct KeyedTables {
    pub tables: IndexMap<Row, TreeTable>,
}

// A body that owns one drops it by a call.
impl Drop for KeyedTables {
    fn drop(self) {
        let KeyedTables { tables } = self;
        drop(tables);
    }
}

impl KeyedTables {
    pub fn new(alloc: Global) -> Self
        ensures { (k : Cells) → get row_eq result.tables k ≡ None }
    {
        KeyedTables {
            tables: IndexMap::new(alloc),
        }
    }

    /// The table of the key. Makes one probe.
    pub fn look(&self, key: RowKey<'_>, probes: &mut Counter) -> Option<&TreeTable>
        requires { probes.old + 1 < 2 ^ 128 }
        ensures table { option_copied result ≡ get row_eq self.now.tables (key_cells key.entry) }
        ensures counted { probes.new ≡ probes.old + 1 }
    {
        probes.raise();
        self.tables.get(key)
    }

    /// Puts the table under the key.
    pub fn put(
        &mut self,
        alloc: Global,
        key: RowKey<'_>,
        table: TreeTable,
    ) -> Result<(), AllocError>
        ensures { OnOk result ((k : Cells) → get row_eq self.new.tables k ≡ cond (row_eq (key_cells key.entry) k) (Some table) (get row_eq self.old.tables k)) }
    {
        let key = key_of(alloc, key.indices, key.row)?;
        match self.tables.insert(key, table) {
            Ok(_) => Ok(()),
            Err(_) => Err(AllocError),
        }
    }

    /// Makes the table at an index one that is copied at once.
    fn share_at(&mut self, alloc: Global, index: usize) -> Result<(), AllocError>
        ensures { IsUnchanged self.old.tables self.new.tables }
    {
        match self.tables.get_index_mut(index) {
            Some(table) => table.make_shared(alloc),
            None => Ok(()),
        }
    }

    /// Makes each table one that is copied at once.
    pub fn make_shared(&mut self, alloc: Global) -> Result<(), AllocError>
        ensures { IsUnchanged self.old.tables self.new.tables }
    {
        let count = self.tables.len();
        for index in 0..count {
            self.share_at(alloc, index)?;
        }
        Ok(())
    }

    /// Makes the room that `put_all` needs.
    pub fn make_room(&mut self, staged: &KeyedTables) -> Result<(), AllocError>
        ensures tables { IsUnchanged self.old.tables self.new.tables }
        ensures room { OnOk result (index_map_len staged.now.tables ≤ spare self.new.tables) }
    {
        self.tables.reserve(staged.tables.len())
    }

    /// Puts the table under the key, or takes the key out where the table is empty.
    fn put_table(&mut self, key: Row, table: TreeTable)
        requires { 0 < spare self.old.tables }
        ensures state { (k : Cells) → get row_eq self.new.tables k ≡ cond (row_eq key k) (unless_empty table) (get row_eq self.old.tables k) }
        ensures room { spare self.old.tables ≤ spare self.new.tables + 1 }
    {
        if table.is_empty() {
            let _ = self.tables.swap_remove(&key);
        } else {
            let _ = self.tables.insert(key, table);
        }
    }

    /// Puts each staged table in place. Takes no memory.
    pub fn put_all(&mut self, mut staged: KeyedTables)
        requires { index_map_len staged.tables ≤ spare self.old.tables }
        ensures { (k : Cells) → get row_eq self.new.tables k ≡ state_of self.old.tables staged.tables k }
    {
        while let Some((key, table)) = staged.tables.pop() {
            self.put_table(key, table);
        }
    }
}
