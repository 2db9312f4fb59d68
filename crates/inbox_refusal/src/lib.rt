// Of the refusals of an inbox the one of the lowest number is given. The inbox itself is read by inbox_scan.
#![tactic(auto)]

ghost use Rattle.std.specs.Prelude.{◌≡◌};
ghost use Rattle.inbox_refusal.specs.Refusal.{lowest_of};

use refusals::Verdict;

// The verdict of the lower number, where one that accepts has none.
pub fn lowest(a: Verdict, b: Verdict) -> Verdict
    ensures { result ≡ lowest_of a b }
{
    match (a, b) {
        (Err(first), Err(second)) if second < first => b,
        (Err(_), _) => a,
        (Ok(()), _) => b,
    }
}
