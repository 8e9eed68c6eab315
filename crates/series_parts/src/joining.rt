// The joined files of a chain file and a net file.
ghost use Rattle.std.specs.Prelude.{◌≡◌, IfOk};
ghost use Rattle.series_parts.specs.JoinedFiles.{AreJoinedFiles};
ghost use Rattle.answers.specs.Gives.{Gives};
ghost use Rattle.series_parts.specs.Joining.{link_told, joined_chain, joined_files, joined_nets};

use crate::fault::LinkFault;
use crate::files;
use crate::least::least_names;
use crate::missing::missing_link_pin;
use crate::names::Names;
use crate::pins::Pins;
use board_files::{ChainFile, NetFile};
use std::alloc::{AllocError, Global};

/// A chain file and a net file in which all nets that LINK lines joined have the same name. The
/// chain file has no LINK line.
#[derive(Drop)]
pub struct Joined {
    pub chain: ChainFile,
    pub nets: NetFile,
}

/// Returns the joined files. LINK lines join nets into groups, and each net of a group gets the
/// name of the group's first net in the net file. Each LINK line becomes an INERT line for the part on
/// the line, so no LINK line is left. `pins` must be made from the lines of `nets`.
fn renamed_files(
    alloc: Global,
    chain: &ChainFile,
    nets: &NetFile,
    pins: &Pins<'_>,
) -> Result<Joined, AllocError>
    requires { pins.now ≡ nets.now }
    ensures { IfOk result
        (λ joined. joined
        ≡ record
        { chain = joined_chain chain.now nets.now; nets = joined_nets chain.now nets.now }) }
{
    let chain = chain.lines();
    let nets = nets.lines();
    let names = Names::of(alloc, nets)?;
    let least = least_names(alloc, chain, &names, pins)?;
    Ok(Joined {
        chain: ChainFile::of(files::joined_chain(alloc, &names, &least, chain)?),
        nets: NetFile::of(files::joined_nets(alloc, &names, &least, nets)?),
    })
}

/// Returns the joined files of a chain file and a net file. If some LINK pin is in no net, returns
/// the line and word of the first such pin as the fault.
pub fn join(alloc: Global, chain: &ChainFile, nets: &NetFile) -> Result<Joined, LinkFault>
    ensures answer { Gives link_told (λ joined. joined)
        (λ answer. joined_files chain.now nets.now ≡ answer) result }
    ensures joined { IfOk result
        (λ joined. AreJoinedFiles chain.now nets.now joined.chain joined.nets) }
{
    let pins = Pins::of(alloc, nets.lines())?;
    if let Some(spot) = missing_link_pin(&pins, chain.lines()) {
        return Err(LinkFault::NoLinkPin(spot));
    }
    Ok(renamed_files(alloc, chain, nets, &pins)?)
}
