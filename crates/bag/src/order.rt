ghost use Rattle.std.specs.Prelude.{◌≡◌, Bool};
ghost use Rattle.bag.specs.Order.{Total};

// A total order by the test 'x comes before y'. Its law: any two compare, comparison is transitive, and what
// ties is equal.
// It is asked for in place of `Ord`, under which values may tie that differ.
pub trait TotalOrder: Copy {
    ghost before: { Self → Self → Bool };

    // Whether self comes before the other.
    fn comes_before(&self, other: &Self) -> bool
        ensures { result ≡ before self.now other.now };

    ghost total: { Total before };
}
