ghost use Rattle.tariff.specs.LongestClosure.{BreaksMonotone, NoTariff, NotMonotone};

/// Joining that takes the larger of two values gives no tariff: 3 is less than 5, but joined with 7 both are 7.
pub fn longest_closure_is_no_tariff()
    ensures breaks { NotMonotone }
    ensures unlawful { NoTariff }
{
    refute(3, 5, 7);
}

// Two values and a third for which the law fails show that it is no law.
fn refute(x: u64, y: u64, z: u64)
    requires { BreaksMonotone x y z }
    ensures breaks { NotMonotone }
    ensures unlawful { NoTariff }
{}
