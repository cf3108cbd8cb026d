//! Plain values.

use crate::comparing::{counts, holds, same};
use bac_values::*;
use std::alloc::Global;
use std::process::Abort;
use std::test::Fail;

#[test]
fn identifiers_keep_their_ranges(rt: HostRuntime) -> Result<(), Fail> {
    let last = ObjectId::new(1023, 4_194_303)?;
    same(&rt, &last.number(), &1023);
    same(&rt, &last.instance(), &4_194_303);
    same(&rt, &ObjectId::new(1024, 0), &Err(InstanceRange));
    same(&rt, &ObjectId::new(0, 4_194_304), &Err(InstanceRange));
    Ok(())
}

#[test]
fn identifiers_are_ordered_and_have_kinds(rt: HostRuntime) -> Result<(), Fail> {
    holds(&rt, ObjectId::new(5, 9)? < ObjectId::new(8, 1)?);
    holds(&rt, ObjectId::new(8, 1)? < ObjectId::new(8, 2)?);
    let tank = ObjectId::of_kind(ObjectKind::IntegerValue, 1)?;
    same(&rt, &tank, &ObjectId::new(45, 1)?);
    same(&rt, &tank.kind(), &Some(ObjectKind::IntegerValue));
    same(&rt, &ObjectId::new(2, 1)?.kind(), &None);
    Ok(())
}

#[test]
fn bit_strings_have_no_bit_past_their_length(rt: HostRuntime) -> Result<(), Fail> {
    let bits = Bits::new(3, 0b101)?;
    same(&rt, &bits.length(), &3);
    same(&rt, &bits.bits(), &0b101);
    same(&rt, &Bits::new(3, 0b1000), &Err(TooManyBits));
    same(&rt, &Bits::new(65, 0), &Err(TooManyBits));
    same(&rt, &Bits::new(64, u64::MAX)?.bits(), &u64::MAX);
    Ok(())
}

fn expect_fan(rt: &impl Abort, text: &Text) -> Result<(), Fail> {
    counts(rt, text.octets().len(), 7);
    same(rt, &text.as_str(), &"Lüfter");
    holds(rt, *text == text.clone()?);
    Ok(())
}

#[test]
fn a_text_has_the_octets_of_its_letters(rt: HostRuntime) -> Result<(), Fail> {
    expect_fan(&rt, &Text::new(rt.alloc(), "Lüfter")?)
}

/// What a text of these letters comes to: the number of its octets, or the fault that it is.
fn octets_of(alloc: Global, letters: &str) -> Result<usize, TextFault> {
    Ok(Text::new(alloc, letters)?.octets().len())
}

/// Text of 256 letters is the longest.
fn expect_longest(rt: &impl Abort, alloc: Global, long: &str) -> Result<(), Fail> {
    same(rt, &octets_of(alloc, long)?, &256);
    let longer = format!(in alloc; "{long}!")?;
    let refused = octets_of(alloc, longer.as_str());
    holds(
        rt,
        matches!(refused, Err(TextFault::TooLong { octets: 257 })),
    );
    Ok(())
}

#[test]
fn texts_have_at_most_256_octets(rt: HostRuntime) -> Result<(), Fail> {
    let long = String::from_str(rt.alloc(), "0123456789abcdef")?.repeat(rt.alloc(), 16)?;
    expect_longest(&rt, rt.alloc(), long.as_str())
}

#[test]
fn a_shorter_station_is_below_a_longer_one(rt: HostRuntime) -> Result<(), Fail> {
    let short = Mac::new(&[9, 9]).ok_or("no station")?;
    let long = Mac::new(&[1, 1, 1]).ok_or("no station")?;
    let later = Mac::new(&[1, 2, 0]).ok_or("no station")?;
    holds(&rt, short < long);
    holds(&rt, long < later);
    holds(&rt, later > short);
    Ok(())
}

#[test]
fn peers_are_ordered_by_address_then_port_then_network(rt: HostRuntime) -> Result<(), Fail> {
    let peer = |ip, port, net| Peer {
        ip,
        port,
        net,
        mac: Mac::none(),
    };
    holds(&rt, Peer::local(7, 47_808) < Peer::local(7, 47_809));
    holds(&rt, Peer::local(7, 47_809) < Peer::local(8, 47_808));
    holds(&rt, peer(7, 47_808, 9) < peer(7, 47_809, 1));
    holds(&rt, peer(7, 47_808, 1) < peer(7, 47_808, 9));
    let station = |octet| {
        Some(Peer {
            ip: 7,
            port: 47_808,
            net: 9,
            mac: Mac::new(&[octet])?,
        })
    };
    holds(&rt, station(1) < station(2));
    holds(&rt, station(1) != station(2));
    Ok(())
}

#[test]
fn stations_have_at_most_seven_octets(rt: HostRuntime) -> Result<(), Fail> {
    let station = Mac::new(&[1, 2, 3]).ok_or("no station")?;
    same(&rt, &station.octets(), &[1, 2, 3].as_slice());
    holds(&rt, Mac::new(&[0; 8]).is_none());
    holds(&rt, Mac::none() < station);
    holds(&rt, Peer::console() < Peer::local(1, 0));
    same(&rt, &Peer::local(0, 0), &Peer::console());
    Ok(())
}

/// Four peers, ascending.
fn four() -> [Peer; 4] {
    [
        Peer::console(),
        Peer::local(7, 47_808),
        Peer::local(7, 47_809),
        Peer::local(8, 47_808),
    ]
}

/// The last two of the four, of which one is put twice.
fn two(alloc: Global) -> Result<PeerList, Fail> {
    let mut list = PeerList::new(alloc);
    list.insert(Peer::local(8, 47_808))?;
    list.insert(Peer::local(7, 47_809))?;
    list.insert(Peer::local(8, 47_808))?;
    Ok(list)
}

/// A list of the last two with two more has all four, and is itself as it was.
fn expect_four(rt: &impl Abort, alloc: Global, list: &PeerList) -> Result<(), Fail> {
    let seven = Peer::local(7, 47_808);
    holds(rt, !list.contains(&seven));
    let more = list.with(alloc, &[seven, Peer::console(), seven])?;
    same(rt, &more.as_slice(), &four().as_slice());
    holds(rt, more.contains(&seven));
    let two = [Peer::local(7, 47_809), Peer::local(8, 47_808)];
    same(rt, &list.as_slice(), &two.as_slice());
    Ok(())
}

#[test]
fn a_list_of_peers_ascends_and_has_each_once(rt: HostRuntime) -> Result<(), Fail> {
    expect_four(&rt, rt.alloc(), &two(rt.alloc())?)
}

fn expect_extended(rt: &impl Abort, list: &mut PeerList) -> Result<(), Fail> {
    list.extend(&four())?;
    same(rt, &list.as_slice(), &four().as_slice());
    Ok(())
}

#[test]
fn a_list_is_extended_by_those_that_it_has_not(rt: HostRuntime) -> Result<(), Fail> {
    expect_extended(&rt, &mut two(rt.alloc())?)
}

#[test]
fn numbers_name_states_and_reliabilities(rt: HostRuntime) {
    same(&rt, &EventState::of_number(3), &Some(EventState::HighLimit));
    same(&rt, &EventState::of_number(5), &None);
    same(&rt, &EventState::LowLimit.number(), &4);
    same(
        &rt,
        &EventState::LowLimit.transition(),
        &Transition::ToOffnormal,
    );
    same(&rt, &Transition::ToNormal.place(), &2);
    same(
        &rt,
        &Reliability::of_number(14),
        &Some(Reliability::MonitoredObjectFault),
    );
    same(&rt, &Reliability::of_number(1), &None);
    same(&rt, &Reliability::CommunicationFailure.number(), &12);
    same(&rt, &ObjectKind::EventLog.number(), &25);
}

#[test]
fn items_give_their_vector_back(rt: HostRuntime) -> Result<(), Fail> {
    let items = Items::of(vec![in rt.alloc(); 7u8, 8]?);
    same(&rt, &items.as_slice(), &[7, 8].as_slice());
    same(&rt, &items.into_vec().as_slice(), &[7, 8].as_slice());
    Ok(())
}
