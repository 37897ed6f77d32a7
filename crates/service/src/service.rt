// The service channel's state over a store.
use crate::kept::Kept;
use crate::link::Link;

// stays: no Model. Tried: a view by the store's own blocks proves, but then making could not promise which store a drive holds,
// and a promise may not get weaker.
#[derive(Drop)]
pub struct Service<S> {
    pub store: S,
    pub mark: bool,
    pub link: Link,
    pub kept: Kept,
}
