//! Repositories at rest: nothing is attached, and no operation runs.

ghost use Rattle.std.specs.Prelude.{◌≡◌};
ghost use Rattle.sm_ready.specs.Known.{shape_in};
ghost use Rattle.sm_ready.specs.Orderly.{IsOrderly};
ghost use Rattle.sm_ready.specs.Ready.{IsReady, IsTidy};
ghost use Rattle.examples_ready.specs.Repositories.{plain_table, plain_known, plain_area, plain_shape, pair_table, pair_known, pair_area, pair_shape};
ghost use Rattle.examples_ready.specs.WorkedRows.{site};

/// A VHD disk and a raw one, by themselves.
pub fn example_plain()
    ensures shape { shape_in site plain_table plain_known ≡ plain_shape }
    ensures orderly { IsOrderly site plain_table plain_known }
    ensures ready { IsReady site plain_table plain_area plain_known }
    ensures tidy { IsTidy plain_table plain_known }
{}

/// A disk and its snapshot, both over a hidden base.
pub fn example_pair()
    ensures shape { shape_in site pair_table pair_known ≡ pair_shape }
    ensures orderly { IsOrderly site pair_table pair_known }
    ensures ready { IsReady site pair_table pair_area pair_known }
    ensures tidy { IsTidy pair_table pair_known }
{}
