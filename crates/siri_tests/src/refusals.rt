//! The texts that say why something about a subscription, a supply or a feed is refused.

use siri_base::Place;
use siri_subscriptions::Refusal;
use std::test::Fail;

/// A refusal, and its ErrorText.
static REFUSALS: [(Refusal, &str); 7] = [
    (Refusal::PastTermination, "PastTermination"),
    (Refusal::Superseded { held: 5 }, "Superseded 5"),
    (Refusal::TableFull, "TableFull"),
    (Refusal::UnknownSubscription, "UnknownSubscription"),
    (Refusal::NothingReady, "NothingReady"),
    (
        Refusal::WrongPart {
            wanted: Place { round: 2, part: 3 },
        },
        "WrongPart 2 3",
    ),
    (Refusal::StoreFull { full: 7 }, "StoreFull 7"),
];

#[test]
fn refusals_have_their_texts(rt: HostRuntime) -> Result<(), Fail> {
    for (refusal, text) in &REFUSALS {
        let said = refusal.text(rt.alloc())?;
        assert_eq!(rt; said.text(), *text);
    }
    Ok(())
}
