// Links: the peers from which a call may come, and to which an initiation may go.
ghost use Rattle.std.specs.Prelude.{◌≡◌, nat_eq};
ghost use Rattle.directory.specs.Contents.{contents, places};
ghost use Rattle.directory.specs.Steps.{remove_answer, remove_list};
ghost use Rattle.directory.specs.Changes.{taken_out};
ghost use Rattle.entries.specs.Entries.{adding_answer, adding_left, with_entry};
ghost use Rattle.entries.specs.Link.{link_key, no_link, link_to, is_linked};

use directory::{Blank, Directory, Keyed};
use refusal::Refusal;

/// A peer from which a delivery is taken, and to which an initiation may go.
#[derive(Clone, Copy)]
pub struct Link {
    /// 1 to 255.
    pub peer: u8,
}

impl Keyed for Link {
    ghost keyed = { link_key };

    fn key(&self) -> u64 {
        u64::from(self.peer)
    }
}

impl Blank for Link {
    ghost blanked = { no_link };

    fn blank() -> Link {
        Link { peer: 0 }
    }
}

impl Link {
    // The link to a peer from 1 to 255.
    fn to(peer: u8) -> Result<Link, Refusal>
        ensures { result ≡ link_to peer }
    {
        if peer == 0 {
            return Err(Refusal::Misdialled);
        }
        Ok(Link { peer })
    }
}

/// Adds the link to a peer. Refused with 4 for peer 0, with 7 where the peer is a link, with 8 where no place is free; a
/// refusal changes nothing.
pub fn add_link(links: &mut Directory<'_, Link>, peer: u8) -> Result<(), Refusal>
    ensures answer { result
        ≡ adding_answer link_key (places links.old) (contents links.old) (link_to peer) }
    ensures list { contents links.new
        ≡ adding_left link_key (places links.old) (contents links.old) (link_to peer) }
    ensures size { places links.new ≡ places links.old }
    ensures whole { links.new ≡ with_entry link_key links.old (link_to peer) }
{
    links.add(Link::to(peer)?)
}

/// Removes the link to a peer, and erases its place. Refused with 6 where the peer is no link; a refusal changes nothing.
pub fn remove_link(links: &mut Directory<'_, Link>, peer: u8) -> Result<(), Refusal>
    ensures answer { result ≡ remove_answer nat_eq link_key (contents links.old) peer }
    ensures list { contents links.new ≡ remove_list nat_eq link_key (contents links.old) peer }
    ensures size { places links.new ≡ places links.old }
    ensures whole { links.new ≡ taken_out link_key no_link links.old peer }
{
    links.remove(u64::from(peer))
}

/// Whether a peer is among the links.
pub fn is_link(links: &Directory<'_, Link>, peer: u8) -> bool
    ensures { result ≡ is_linked (contents links.now) peer }
{
    links.contains(u64::from(peer))
}
