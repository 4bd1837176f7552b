//! Zones: what is known of some rows that stand together, without the rows.
ghost use Rattle.std.specs.Prelude.{◌≡◌, ◌<◌, IfSome, IsTrue, Some, is_some, length, slice_get};
ghost use Rattle.vortex_zone_map.specs.Choosing as choosing;
ghost use Rattle.vortex_zone_map.specs.Zone.{ZoneData, fits_zone};

use std::marker::Model;
use vortex_base::scope::Scope;
use vortex_stats::stats_set::StatsSet;

// The sets of a zone: all of a list, or those at some places of it.
#[derive(Debug, Drop)]
enum Sets<'a> {
    All(&'a [StatsSet]),
    At(&'a [StatsSet], &'a [usize]),
}

/// How many rows stand together, and the statistics of each of their columns, which are borrowed.
#[derive(Debug, Drop)]
pub struct Zone<'a> {
    rows: u64,
    sets: Sets<'a>,
}

impl<'a> Model for Zone<'a> {
    ghost use Rattle.vortex_zone_map.specs.Zone.{ZoneData};
    ghost use Rattle.vortex_zone_map.specs.ZoneSets.{AreWithin, all_sets};

    ghost Value = { ZoneData };

    ghost view = { λ z. record { rows = z.rows; stats = all_sets z.sets } };

    ghost invariant = { λ z. AreWithin z.sets };
}

// Whether each is the place of one of so many elements.
fn are_places(places: &[usize], count: usize) -> bool
    ensures { result ≡ choosing.are_places count places.now }
{
    places.iter().all(|place| *place < count)
}

// The set at a place.
fn set_at(sets: &[StatsSet], i: usize) -> &StatsSet
    requires { i < length sets.now }
    ensures { slice_get sets.now i ≡ Some result.now }
{
    &sets[i]
}

// The set at one of some places.
fn set_chosen<'a>(sets: &'a [StatsSet], places: &[usize], i: usize) -> &'a StatsSet
    requires within { IsTrue (choosing.are_places (length sets.now) places.now) }
    requires there { i < length places.now }
    ensures { slice_get (choosing.chosen places.now sets.now) i ≡ Some result.now }
{
    let place = places[i];
    set_at(sets, place)
}

impl<'a> Zone<'a> {
    /// The zone of a number of rows, and a set for each of their columns.
    pub fn new(rows: u64, stats: &'a [StatsSet]) -> Zone<'a>
        ensures { result ≡ record { rows = rows; stats = stats.now } }
    {
        Zone {
            rows,
            sets: Sets::All(stats),
        }
    }

    /// The zone of a number of rows and of some of their columns alone, which are told by their
    /// places in the list of all sets, in any order. No set is copied, and those of other columns
    /// aren't looked at; so a map of such zones, whose scope is that of the chosen columns, costs
    /// what these cost. None if a place is past the sets.
    pub fn of_columns(rows: u64, stats: &'a [StatsSet], columns: &'a [usize]) -> Option<Zone<'a>>
        ensures made { is_some result ≡ choosing.are_places (length stats.now) columns.now }
        ensures zone { let whole : ZoneData = record { rows = rows; stats = stats.now } in
            IfSome result (λ zone. zone ≡ choosing.chosen_zone columns.now whole) }
    {
        if !are_places(columns, stats.len()) {
            return None;
        }
        Some(Zone {
            rows,
            sets: Sets::At(stats, columns),
        })
    }

    /// How many rows it has.
    pub fn rows(&self) -> u64
        ensures { result ≡ self.now.rows }
    {
        self.rows
    }

    /// How many columns it has a set of.
    pub fn columns(&self) -> usize
        ensures { result ≡ length self.now.stats }
    {
        match self.sets {
            Sets::All(sets) => sets.len(),
            Sets::At(_, places) => places.len(),
        }
    }

    /// The set of the column at a place, which `columns` tells to be in range.
    pub fn set(&self, i: usize) -> &StatsSet
        requires { i < length self.now.stats }
        ensures { slice_get self.now.stats i ≡ Some result.now }
    {
        match self.sets {
            Sets::All(sets) => set_at(sets, i),
            Sets::At(sets, places) => set_chosen(sets, places, i),
        }
    }
}

// Whether a zone has one set a column of a scope that fits its type.
pub fn sets_fit(scope: &Scope, zone: &Zone<'_>) -> bool
    ensures { result ≡ fits_zone scope.now zone.now.stats }
{
    if scope.len() != zone.columns() {
        return false;
    }
    for i in 0..scope.len() {
        if !zone.set(i).fits(&scope.dtype(i)) {
            return false;
        }
    }
    true
}
