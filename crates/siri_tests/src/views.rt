//! Views of vehicles, and the changes that lead from one to another.

use siri_base::Name;
use siri_change::{Change, View, changes};
use siri_records::{Item, Key, SharedKey, Vehicle, VehicleJourney};
use std::alloc::{AllocError, Global};
use std::rc::Rc;
use std::test::Fail;

fn vehicle_of(name: Name) -> Item {
    Item::Vehicle(Vehicle {
        recorded_at_time: None,
        item_identifier: None,
        valid_until_time: None,
        monitored_vehicle_journey: VehicleJourney::blank(name),
    })
}

fn addition(alloc: Global, name: &str) -> Result<Change, Fail> {
    let vehicle = Name::new(alloc, name)?;
    let item = Rc::new(alloc, vehicle_of(Name::new(alloc, name)?))?;
    Ok(Change {
        key: SharedKey::new(alloc, Key::Vehicle { vehicle })?,
        item: Some(item),
    })
}

fn view_of(alloc: Global, names: &[&str]) -> Result<View, Fail> {
    let mut view = View::new(alloc);
    for name in names {
        let change = addition(alloc, name)?;
        view.put_change(change)?;
    }
    Ok(view)
}

/// The names of its vehicles, each with a space before it.
fn names_in(alloc: Global, view: &View) -> Result<String, AllocError> {
    let mut text = String::new(alloc);
    for place in 0..view.len() {
        if let Some((key, _)) = view.entry(place) {
            push_name(&mut text, key.key())?;
        }
    }
    Ok(text)
}

/// Puts the name of a vehicle at the end, with a space before it.
fn push_name(text: &mut String, key: &Key) -> Result<(), AllocError> {
    if let Key::Vehicle { vehicle } = key {
        text.push_str(" ")?;
        text.push_str(vehicle.text())?;
    }
    Ok(())
}

/// The first view after the changes that lead to the second.
fn names_after_changes(alloc: Global, before: &[&str], after: &[&str]) -> Result<String, Fail> {
    let mut view_before = view_of(alloc, before)?;
    let list = changes(&view_before, &view_of(alloc, after)?)?;
    view_before.put_changes(list)?;
    Ok(names_in(alloc, &view_before)?)
}

#[test]
fn changes_lead_from_one_view_to_another(rt: HostRuntime) -> Result<(), Fail> {
    assert_eq!(rt;
        names_after_changes(rt.alloc(), &["b", "a"], &["c", "b"])?.as_str(),
        " b c"
    );
    Ok(())
}
