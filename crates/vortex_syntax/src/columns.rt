//! The columns of a text, found by their names.
ghost use Rattle.std.specs.Prelude.{◌≡◌, ◌<◌, ◌++◌, ◌∷◌, [], IfSome, None, OnErr, OnOk, Some, length, option_map, string_bytes};
ghost use Rattle.vortex_expr.specs.Meanings.Binding.{find_column};
ghost use Rattle.vortex_base.specs.Data.Scopes.{named_columns, place_of};

use std::alloc::{AllocError, Global};
use std::collections::BTreeMap;
use std::marker::Model;
use vortex_base::dtype::DType;

/// Columns in order, and the place of each by its name, so that a name is found without a look at
/// the others.
#[derive(Drop)]
pub struct Columns {
    named: Vec<(String, DType)>,
    places: BTreeMap<Vec<u8>, usize>,
}

impl Model for Columns {
    ghost use Rattle.std.specs.Prelude.{List, String};
    ghost use Rattle.std.specs.declared.alloc.Global.{Global};
    ghost use Rattle.vortex_base.specs.declared.dtype.DType.{DType};
    ghost use Rattle.vortex_syntax.specs.Places.{IsKept};

    ghost Value = { List (String Global × DType) };

    ghost view = { λ c. c.named.items };

    ghost invariant = { λ c. IsKept c.named.items c.places };
}

impl Columns {
    /// No columns.
    pub fn new(alloc: Global) -> Columns
        ensures { result ≡ [] }
    {
        Columns {
            named: Vec::new(alloc),
            places: BTreeMap::new(alloc),
        }
    }

    /// The columns in order.
    pub fn as_slice(&self) -> &[(String, DType)]
        ensures { result.now ≡ self.now }
    {
        self.named.as_slice()
    }

    /// The columns in order.
    pub fn into_vec(self) -> Vec<(String, DType)>
        ensures { result.items ≡ self }
    {
        let Columns { named, .. } = self;
        named
    }

    fn place_of(&self, name: &[u8]) -> Option<usize>
        ensures value { result ≡ place_of name.now (named_columns self.now) }
        ensures in_range { IfSome result (λ i. i < length self.now) }
    {
        self.places.get(name).copied()
    }

    /// The place and the type of the column of a name.
    pub fn find(&self, name: &[u8]) -> Option<(usize, DType)>
        ensures { option_map (λ p. record { index = p.0; dtype = p.1 }) result
            ≡ find_column (named_columns self.now) name.now }
    {
        let named = self.as_slice();
        match self.place_of(name) {
            Some(place) => Some((place, named[place].1)),
            None => None,
        }
    }

    // The type of the column of a place, if it has this name.
    #[inline(always)]
    fn type_at(&self, place: usize, name: &[u8]) -> Option<DType>
        ensures { IfSome result (λ t. find_column (named_columns self.now) name.now
            ≡ Some (record { index = place; dtype = t })) }
    {
        match self.named.get(place) {
            Some(named) if named.0.as_bytes() == name => Some(named.1),
            _ => None,
        }
    }

    /// Finds the column of a name, soonest where it is that of this place or the one behind that.
    #[inline]
    pub fn find_near(&self, place: usize, name: &[u8]) -> Option<(usize, DType)>
        ensures { option_map (λ p. record { index = p.0; dtype = p.1 }) result
            ≡ find_column (named_columns self.now) name.now }
    {
        if let Some(dtype) = self.type_at(place, name) {
            return Some((place, dtype));
        }
        let next = place.saturating_add(1);
        if let Some(dtype) = self.type_at(next, name) {
            return Some((next, dtype));
        }
        self.find(name)
    }

    /// One more column, whose name is new. Where memory is refused, the columns stay.
    pub fn push(&mut self, alloc: Global, name: String, dtype: DType) -> Result<(), AllocError>
        requires { place_of (string_bytes name) (named_columns self.old) ≡ None }
        ensures ok { OnOk result (self.new ≡ self.old ++ (name, dtype) ∷ []) }
        ensures err { OnErr result (self.new ≡ self.old) }
    {
        let key = Vec::from_slice(alloc, name.as_bytes())?;
        let place = self.as_slice().len();
        self.named.push((name, dtype))?;
        match self.places.insert(key, place) {
            Ok(_) => Ok(()),
            Err(_) => {
                let _ = self.named.pop();
                Err(AllocError)
            }
        }
    }
}
