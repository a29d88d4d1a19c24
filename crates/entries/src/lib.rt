// What the directories hold: links to peers, and subscribers.
#![tactic(auto)]

mod link;
mod subscriber;

pub use link::{Link, add_link, is_link, remove_link};
pub use subscriber::{KeyPlace, Subscriber, add_subscriber, remove_subscriber};
