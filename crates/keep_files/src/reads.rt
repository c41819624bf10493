// The calls of a keeper that read.
use crate::call::Reading;
use keep_database::{ProvedKeeper, Steady};
use keep_office::{DayRecord, KeepFault, Keeper, PastRecord};
use keep_trees::PageTrees;
use road_time::{SpentRow, Tariffs};
use sqlite_pages::Pages;
use std::alloc::Global;

/// Asks for the last day.
#[derive(Clone, Copy)]
pub struct LastDay;

impl Reading for LastDay {
    ghost use Rattle.std.specs.Prelude.{◌≡◌, IfOk, IsSome};
    ghost use Rattle.keep_office.specs.Office.{last_day as last_day_of};
    ghost use Rattle.keep_trees.specs.Tells.{IsToldLast};
    ghost use Rattle.keep_database.specs.Shows.{ShowsLast};

    type Answer = u32;

    ghost answers = { λ _. Unit {0} };

    ghost gives = { λ _ o last. last ≡ last_day_of o };

    ghost takes = { λ _ o. IsSome o.past };

    ghost tells = { λ _ t result. IfOk result (IsToldLast (t 0) (t 3)) };

    ghost shows = { λ g _ old result. IfOk result (ShowsLast g old) };

    fn ask<S: Steady>(self, kept: &mut ProvedKeeper<S>) -> Result<u32, KeepFault> {
        kept.last_day()
    }

    fn look<P: Pages>(self, _alloc: Global, trees: &mut PageTrees<P>) -> Result<u32, KeepFault> {
        trees.last_day()
    }
}

/// Asks for the record of a day.
#[derive(Clone, Copy)]
pub struct AskedDay {
    pub day: u32,
}

impl Reading for AskedDay {
    ghost use Rattle.std.specs.Prelude.{◌≡◌, IfOk, IsSome};
    ghost use Rattle.keep_office.specs.Office.{record_of};
    ghost use Rattle.keep_trees.specs.Tells.{IsToldDay};
    ghost use Rattle.keep_database.specs.Shows.{ShowsDay};

    type Answer = Option<DayRecord>;

    ghost answers = { λ _. Unit {0} };

    ghost gives = { λ ask o kept. kept ≡ record_of o ask.day };

    ghost takes = { λ ask o. IsSome (record_of o ask.day) };

    ghost tells = { λ ask t result. IfOk result (IsToldDay (t 0) (t 4) ask.day) };

    ghost shows = { λ g ask old result. IfOk result (ShowsDay g ask.day old) };

    fn ask<S: Steady>(self, kept: &mut ProvedKeeper<S>) -> Result<Option<DayRecord>, KeepFault> {
        kept.day(self.day)
    }

    fn look<P: Pages>(
        self,
        _alloc: Global,
        trees: &mut PageTrees<P>,
    ) -> Result<Option<DayRecord>, KeepFault> {
        trees.day(self.day)
    }
}

/// Asks for the record of the history.
#[derive(Clone, Copy)]
pub struct Past;

impl Reading for Past {
    ghost use Rattle.std.specs.Prelude.{◌≡◌, ◌≤◌, IfOk, IfSome, IsSome};
    ghost use Rattle.keep_trees.specs.Tells.{IsToldPast};
    ghost use Rattle.keep_database.specs.Shows.{ShowsPast};

    type Answer = Option<PastRecord>;

    ghost answers = { λ past. IfSome past (λ p. 70 ≤ p.base) };

    ghost gives = { λ _ o past. past ≡ o.past };

    ghost takes = { λ _ o. IsSome o.past };

    ghost tells = { λ _ t result. IfOk result (IsToldPast (t 3)) };

    ghost shows = { λ g _ old result. IfOk result (ShowsPast g old) };

    fn ask<S: Steady>(self, kept: &mut ProvedKeeper<S>) -> Result<Option<PastRecord>, KeepFault> {
        kept.past()
    }

    fn look<P: Pages>(
        self,
        _alloc: Global,
        trees: &mut PageTrees<P>,
    ) -> Result<Option<PastRecord>, KeepFault> {
        trees.past()
    }
}

/// Asks for the amount of a vehicle on an expressway on a day.
#[derive(Clone, Copy)]
pub struct AskedSpent {
    pub day: u32,
    pub vid: u32,
    pub xway: u8,
}

impl Reading for AskedSpent {
    ghost use Rattle.std.specs.Prelude.{◌≡◌, IfOk};
    ghost use Rattle.road_time.specs.History.{paid};
    ghost use Rattle.keep_trees.specs.Finds.{IsHeldAmount};
    ghost use Rattle.keep_database.specs.Shows.{ShowsSpent};

    type Answer = u64;

    ghost answers = { λ _. Unit {0} };

    ghost gives = { λ ask o tolls. tolls ≡ paid o.rows ask.day ask.vid ask.xway };

    ghost takes = { λ _ _. ⊥ };

    ghost tells = { λ ask t result. IfOk result (IsHeldAmount (t 1) (t 2) ask.day ask.vid ask.xway) };

    ghost shows = { λ g ask old result. IfOk result (ShowsSpent g ask.day ask.vid ask.xway old) };

    fn ask<S: Steady>(self, kept: &mut ProvedKeeper<S>) -> Result<u64, KeepFault> {
        kept.spent(self.day, self.vid, self.xway)
    }

    fn look<P: Pages>(self, _alloc: Global, trees: &mut PageTrees<P>) -> Result<u64, KeepFault> {
        trees.spent(self.day, self.vid, self.xway)
    }
}

/// Asks for the amounts of some days.
#[derive(Clone, Copy)]
pub struct Rows {
    pub from: u32,
    pub to: u32,
}

impl Reading for Rows {
    ghost use Rattle.std.specs.Prelude.{◌≡◌, ◌≢◌, [], IfOk};
    ghost use Rattle.keep_office.specs.Office.{RowsRise, rows_between};
    ghost use Rattle.keep_trees.specs.Tolls.{AreToldRows};
    ghost use Rattle.keep_database.specs.Shows.{ShowsRows};

    type Answer = Vec<SpentRow>;

    ghost answers = { λ rows. RowsRise rows.items };

    ghost gives = { λ ask o rows. rows.items ≡ rows_between o ask.from ask.to };

    ghost takes = { λ ask o. rows_between o ask.from ask.to ≢ [] };

    ghost tells = { λ ask t result. IfOk result (λ rows. AreToldRows (t 1) (t 2) ask.from ask.to rows.items) };

    ghost shows = { λ g ask old result. IfOk result (λ rows. ShowsRows g ask.from ask.to old rows.items) };

    fn ask<S: Steady>(self, kept: &mut ProvedKeeper<S>) -> Result<Vec<SpentRow>, KeepFault> {
        kept.rows(self.from, self.to)
    }

    fn look<P: Pages>(
        self,
        alloc: Global,
        trees: &mut PageTrees<P>,
    ) -> Result<Vec<SpentRow>, KeepFault> {
        trees.rows(alloc, self.from, self.to)
    }
}

/// Asks for the amounts of a vehicle on some days.
#[derive(Clone, Copy)]
pub struct VehicleRows {
    pub vid: u32,
    pub from: u32,
    pub to: u32,
}

impl Reading for VehicleRows {
    ghost use Rattle.std.specs.Prelude.{◌≡◌, ◌≢◌, [], IfOk};
    ghost use Rattle.keep_office.specs.Office.{RowsRise, vehicle_rows_between};
    ghost use Rattle.keep_trees.specs.Tolls.{AreToldOf};
    ghost use Rattle.keep_database.specs.Shows.{ShowsVehicleRows};

    type Answer = Vec<SpentRow>;

    ghost answers = { λ rows. RowsRise rows.items };

    ghost gives = { λ ask o rows. rows.items ≡ vehicle_rows_between o ask.vid ask.from ask.to };

    ghost takes = { λ ask o. vehicle_rows_between o ask.vid ask.from ask.to ≢ [] };

    ghost tells = { λ ask t result.
        IfOk result (λ rows. AreToldOf (t 1) (t 2) ask.vid ask.from ask.to rows.items) };

    ghost shows = { λ g ask old result.
        IfOk result (λ rows. ShowsVehicleRows g ask.vid ask.from ask.to old rows.items) };

    fn ask<S: Steady>(self, kept: &mut ProvedKeeper<S>) -> Result<Vec<SpentRow>, KeepFault> {
        kept.vehicle_rows(self.vid, self.from, self.to)
    }

    fn look<P: Pages>(
        self,
        alloc: Global,
        trees: &mut PageTrees<P>,
    ) -> Result<Vec<SpentRow>, KeepFault> {
        trees.vehicle_rows(alloc, self.vid, self.from, self.to)
    }
}

/// Asks for the tariffs.
#[derive(Clone, Copy)]
pub struct KeptTariffs;

impl Reading for KeptTariffs {
    ghost use Rattle.std.specs.Prelude.{◌≡◌, ◌≢◌, [], IfOk};
    ghost use Rattle.keep_trees.specs.Tells.{AreTold};
    ghost use Rattle.keep_database.specs.Shows.{ShowsTariffs};

    type Answer = Tariffs;

    ghost answers = { λ _. Unit {0} };

    ghost gives = { λ _ o tariffs. tariffs ≡ o.tariffs };

    ghost takes = { λ _ o. o.tariffs ≢ [] };

    ghost tells = { λ _ t result. IfOk result (AreTold (t 5)) };

    ghost shows = { λ g _ old result. IfOk result (ShowsTariffs g old) };

    fn ask<S: Steady>(self, kept: &mut ProvedKeeper<S>) -> Result<Tariffs, KeepFault> {
        kept.tariffs()
    }

    fn look<P: Pages>(self, alloc: Global, trees: &mut PageTrees<P>) -> Result<Tariffs, KeepFault> {
        trees.tariffs(alloc)
    }
}
