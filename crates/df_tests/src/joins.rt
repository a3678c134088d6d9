//! Live joins under deltas of both sides.
use crate::deltas::{JoinDtypes, Pair, PairChange, TwoSidedStep, comes, follows_both, goes};
use crate::given::columns;
use df_join::LiveJoin;
use df_ops::How;
use df_value::{CellType, Text};
use std::alloc::{AllocError, Global};
use std::test::Fail;

const KEY: [CellType; 1] = [CellType::Int];

const KEY_AND_VALUE: [CellType; 2] = [CellType::Int, CellType::Int];

fn pair_comes(left: u64, right: u64, row: Pair) -> PairChange {
    PairChange {
        tag: (left, right, 0),
        old: None,
        new: Some(row),
    }
}

fn pair_goes(left: u64, right: u64, row: Pair) -> PairChange {
    PairChange {
        tag: (left, right, 0),
        old: Some(row),
        new: None,
    }
}

// The join on k of two scans, of columns with these names.
fn join(alloc: Global, left: &[&str], right: &[&str], how: How) -> Result<LiveJoin, AllocError> {
    let left = columns(alloc, left)?;
    let right = columns(alloc, right)?;
    let keys = [Text::from_str(alloc, "k")?];
    LiveJoin::new(alloc, &left, &right, 1, 1, how, &keys, false)
}

#[test]
fn a_row_joined_with_itself_comes_once(rt: HostRuntime) -> Result<(), Fail> {
    let alloc = rt.alloc();
    let row = (Some(7), None);
    let dtypes = JoinDtypes {
        left: &KEY,
        right: &KEY,
        told: &KEY,
    };
    let first = TwoSidedStep {
        left: &[comes(1, row)],
        right: &[comes(1, row)],
        told: &[pair_comes(1, 1, row)],
        most: 16,
    };
    let second = TwoSidedStep {
        left: &[comes(2, row)],
        right: &[comes(2, row)],
        told: &[
            pair_comes(1, 2, row),
            pair_comes(2, 1, row),
            pair_comes(2, 2, row),
        ],
        most: 16,
    };
    let join = join(alloc, &["k"], &["k"], How::Inner)?;
    assert!(rt; follows_both(alloc, join, dtypes, &[first, second])?);
    Ok(())
}

#[test]
fn the_null_row_gives_way_to_a_match_and_comes_back(rt: HostRuntime) -> Result<(), Fail> {
    let alloc = rt.alloc();
    let dtypes = JoinDtypes {
        left: &KEY,
        right: &KEY_AND_VALUE,
        told: &KEY_AND_VALUE,
    };
    let alone = (Some(7), None);
    let pair = (Some(7), Some(1));
    let comes_alone = TwoSidedStep {
        left: &[comes(1, alone)],
        right: &[],
        told: &[pair_comes(1, 0, alone)],
        most: 8,
    };
    let is_matched = TwoSidedStep {
        left: &[],
        right: &[comes(5, pair)],
        told: &[pair_goes(1, 0, alone), pair_comes(1, 5, pair)],
        most: 8,
    };
    let is_alone = TwoSidedStep {
        left: &[],
        right: &[goes(5, pair)],
        told: &[pair_comes(1, 0, alone), pair_goes(1, 5, pair)],
        most: 8,
    };
    let join = join(alloc, &["k"], &["k", "v"], How::Left)?;
    assert!(rt; follows_both(alloc, join, dtypes, &[comes_alone, is_matched, is_alone])?);
    Ok(())
}
