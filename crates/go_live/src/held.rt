// What a session has at one of its places.
use go_stream::LiveStream;
use go_views::LiveView;

/// What a session has at one of its places.
#[derive(Drop)]
pub(crate) enum Held {
    /// Nothing.
    Free,
    /// A view.
    View { view: LiveView },
    /// A stream.
    Stream { stream: LiveStream },
}
