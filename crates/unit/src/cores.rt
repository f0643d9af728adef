// What a unit serves and ticks with.
use decision::State;
use session::Counts;
use settings::Settings;
use store::Store;

// Nothing is counted yet.
pub(crate) const NO_COUNTS: Counts = Counts {
    wake_ticks: 0,
    sent: 0,
    number: 0,
    phase: 0,
    seconds: 0,
};

#[derive(Drop)]
pub(crate) struct Core<S: Store> {
    // none while the unit is dark
    pub(crate) state: Option<State>,
    pub(crate) settings: Settings,
    pub(crate) counts: Counts,
    pub(crate) store: S,
}
