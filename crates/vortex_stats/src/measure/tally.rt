//! Tallies of the order of a column's values, one value after another.
ghost use Rattle.std.specs.Prelude.{◌≡◌, ◌∷◌, ◌++◌, ◌<◌, [], if◌then◌else◌, List, Option, Some, length, option_map};
ghost use Rattle.vortex_base.specs.declared.dtype.DType.{DType};
ghost use Rattle.vortex_base.specs.declared.scalar_value.ScalarValue.{ScalarValue};
ghost use Rattle.vortex_base.specs.declared.scalar_value.ScalarValue.TheVariants as value;
ghost use Rattle.vortex_stats.specs.declared.stat.Stat.TheVariants.{Sum};
ghost use Rattle.vortex_stats.specs.Stat.{stat_dtype};
ghost use Rattle.vortex_stats.specs.Sets.Claims.{present, sum_of};
ghost use Rattle.vortex_stats.specs.Measuring.Measured.{number_in};
ghost use Rattle.vortex_stats.specs.Measuring.Measures.{AreMeasuresOf};
ghost use Rattle.vortex_stats.specs.Measuring.Tallies.{IsKeyOf, IsOptionalKeyOf, IsOptionalRunOf, IsRunOf, IsTallyOf};

use crate::measure::measures::Measures;
use vortex_base::pvalue::PValue;

/// A stand-in for a value while a column is measured. Keys compare as the values of one type do.
pub(crate) trait Key: Ord + Copy {
    ghost use Rattle.std.specs.Prelude.{◌≡◌};
    ghost use Rattle.vortex_stats.specs.Measuring.Codes.{Code, code_cmp};

    ghost code: { Self → Code };

    ghost ordered: { (a b : Self) → Self.cmp a b ≡ code_cmp (code a) (code b) };
}

impl Key for i64 {
    ghost use Rattle.vortex_stats.specs.Measuring.Codes.{signed_code, signed_ordered};

    ghost code = { signed_code };

    ghost ordered = { signed_ordered };
}

impl Key for u64 {
    ghost use Rattle.vortex_stats.specs.Measuring.Codes.{unsigned_code, unsigned_ordered};

    ghost code = { unsigned_code };

    ghost ordered = { unsigned_ordered };
}

impl<'a> Key for &'a str {
    ghost use Rattle.vortex_stats.specs.Measuring.Codes.{bytes_code, bytes_ordered};

    ghost code = { λ t. bytes_code t.now };

    ghost ordered = { λ s t. bytes_ordered s.now t.now };
}

impl<'a> Key for &'a [u8] {
    ghost use Rattle.vortex_stats.specs.Measuring.Codes.{bytes_code, bytes_ordered};

    ghost code = { λ b. bytes_code b.now };

    ghost ordered = { λ s t. bytes_ordered s.now t.now };
}

// The first where the test holds, else the second.
#[inline]
fn pick<T: Copy>(test: bool, first: T, second: T) -> T
    ensures { result ≡ (if test then first else second) }
{
    if test { first } else { second }
}

// The least, the greatest and the last of some values, where the first two stand, and whether the
// values ascend.
#[derive(Clone, Copy)]
pub(crate) struct Run<K> {
    least: K,
    least_at: usize,
    greatest: K,
    greatest_at: usize,
    last: K,
    is_sorted: bool,
    is_strict_sorted: bool,
}

impl<K: Key> Run<K> {
    // The run of one value, behind nulls alone.
    #[inline]
    fn new(key: K, at: usize) -> Run<K>
        ensures { (t : DType) (xs : List (Option ScalarValue)) (v : ScalarValue)
            → length xs ≡ at → IsKeyOf K.code t key v → present xs ≡ []
            → IsRunOf K.code t result (xs ++ Some v ∷ []) }
    {
        Run {
            least: key,
            least_at: at,
            greatest: key,
            greatest_at: at,
            last: key,
            is_sorted: true,
            is_strict_sorted: true,
        }
    }

    // The run with one more value.
    #[inline]
    fn then(self, key: K, at: usize) -> Run<K>
        ensures { (t : DType) (xs : List (Option ScalarValue)) (v : ScalarValue)
            → length xs ≡ at → IsKeyOf K.code t key v → IsRunOf K.code t self xs
            → IsRunOf K.code t result (xs ++ Some v ∷ []) }
    {
        let order = self.last.cmp(&key);
        let is_least = key.cmp(&self.least).is_lt();
        let is_greatest = self.greatest.cmp(&key).is_lt();
        Run {
            least: pick(is_least, key, self.least),
            least_at: pick(is_least, at, self.least_at),
            greatest: pick(is_greatest, key, self.greatest),
            greatest_at: pick(is_greatest, at, self.greatest_at),
            last: key,
            is_sorted: self.is_sorted & !order.is_gt(),
            is_strict_sorted: self.is_strict_sorted & order.is_lt(),
        }
    }
}

// The run, if there is one, with one more value.
#[inline]
fn with_value<K: Key>(run: Option<Run<K>>, key: K, at: usize) -> Run<K>
    ensures { (t : DType) (xs : List (Option ScalarValue)) (v : ScalarValue)
        → length xs ≡ at → IsKeyOf K.code t key v → IsOptionalRunOf K.code t run xs
        → IsRunOf K.code t result (xs ++ Some v ∷ []) }
{
    match run {
        None => Run::new(key, at),
        Some(run) => run.then(key, at),
    }
}

// How many of some optional values are null, and the run of the others, if there are any.
#[derive(Clone, Copy)]
pub(crate) struct Tally<K> {
    nulls: usize,
    run: Option<Run<K>>,
}

impl<K: Key> Tally<K> {
    // The tally of no values.
    pub(crate) fn new() -> Tally<K>
        ensures { (t : DType) → IsTallyOf K.code t result [] }
    {
        Tally {
            nulls: 0,
            run: None,
        }
    }

    // Adds the optional value at a place, which stands behind the earlier ones.
    #[inline]
    pub(crate) fn push(&mut self, key: Option<K>, at: usize)
        requires { self.old.nulls < usize.MAX }
        ensures { (t : DType) (xs : List (Option ScalarValue)) (x : Option ScalarValue)
            → length xs ≡ at → IsOptionalKeyOf K.code t key x → IsTallyOf K.code t self.old xs
            → IsTallyOf K.code t self.new (xs ++ x ∷ []) }
    {
        match key {
            None => self.nulls += 1,
            Some(key) => self.run = Some(with_value(self.run, key, at)),
        }
    }

    // The measures of these values. Their sum is the caller's.
    pub(crate) fn measures(self, sum: Option<PValue>) -> Measures
        ensures { (t : DType) (xs : List (Option ScalarValue)) → IsTallyOf K.code t self xs
            → option_map value.Primitive sum ≡ number_in (stat_dtype Sum t) (sum_of (present xs))
            → AreMeasuresOf result t xs }
    {
        let Tally { nulls, run } = self;
        match run {
            None => Measures {
                nulls,
                is_constant: true,
                is_sorted: true,
                is_strict_sorted: true,
                greatest: None,
                least: None,
                sum,
            },
            Some(all) => Measures {
                nulls,
                is_constant: (nulls == 0) & all.least.cmp(&all.greatest).is_eq(),
                is_sorted: all.is_sorted,
                is_strict_sorted: all.is_strict_sorted,
                greatest: Some(all.greatest_at),
                least: Some(all.least_at),
                sum,
            },
        }
    }
}
