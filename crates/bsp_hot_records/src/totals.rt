//! What documents add up to.

ghost use Rattle.std.specs.Prelude.{◌≡◌, ◌-◌, ◌^◌};
ghost use Rattle.bsp_hot_records.specs.Sums.{add, net_of, is_same, has_totals, AreSmall};

/// What documents add up to: how many there are, and their cash, credit, commission and tax on
/// commission in minor units.
#[derive(Clone, Copy, PartialEq, Eq)]
pub struct Sums {
    /// How many documents there are.
    pub documents: usize,
    /// What was paid in cash (BKP84 with the form `CA`), in minor units.
    pub cash: i128,
    /// What was paid by card (BKP84 with the form `CC`), in minor units.
    pub credit: i128,
    /// The commission (BKS39), in minor units.
    pub commission: i128,
    /// The tax on commission (BKS42), in minor units; none in form 1.
    pub tax: i128,
}

/// Sums, and their net: cash less commission and tax on commission.
#[derive(Clone, Copy)]
pub struct Totals {
    /// The sums.
    pub sums: Sums,
    /// Cash less commission and tax on commission, in minor units.
    pub net: i128,
}

impl Sums {
    /// Of nothing.
    pub const NONE: Sums = Sums {
        documents: 0,
        cash: 0,
        credit: 0,
        commission: 0,
        tax: 0,
    };

    /// Of a document alone.
    pub const DOCUMENT: Sums = Sums {
        documents: 1,
        cash: 0,
        credit: 0,
        commission: 0,
        tax: 0,
    };

    /// Both together.
    #[inline]
    #[tactic(auto, unfolding(crate::specs::Sums::add))]
    pub fn plus(self, other: Sums) -> Sums
        requires small { AreSmall (2 ^ 63) self }
        // One less, so that the documents add up to less than 2 ^ 64.
        requires also_small { AreSmall (2 ^ 63 - 1) other }
        ensures { result ≡ add self other }
    {
        Sums {
            documents: self.documents + other.documents,
            cash: self.cash + other.cash,
            credit: self.credit + other.credit,
            commission: self.commission + other.commission,
            tax: self.tax + other.tax,
        }
    }

    /// The net: cash less commission and tax on commission.
    pub fn net(self) -> i128
        requires { AreSmall (2 ^ 63) self }
        ensures { result ≡ net_of self }
    {
        self.cash - self.commission - self.tax
    }

    /// Whether the sums are the same.
    #[tactic(auto, unfolding(crate::specs::Sums::is_same))]
    fn is_same(self, other: Sums) -> bool
        ensures { result ≡ is_same self other }
    {
        self.documents == other.documents
            && self.cash == other.cash
            && self.credit == other.credit
            && self.commission == other.commission
            && self.tax == other.tax
    }

    /// Whether the totals are of these sums, with their net.
    #[tactic(auto, unfolding(crate::specs::Sums::has_totals))]
    pub fn has(self, totals: Totals) -> bool
        requires { AreSmall (2 ^ 63) self }
        ensures { result ≡ has_totals self totals }
    {
        totals.sums.is_same(self) && totals.net == self.net()
    }
}
