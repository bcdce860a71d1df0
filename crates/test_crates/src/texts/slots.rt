//! Texts with their first slot faults in each edition of the grammar.

use std::process::Abort;
use wkt_grammar::{Edition, SlotFault, SlotName, check_slots};
use wkt_tree::scan;

// Whether this is the first slot fault of a text, or none if it has none.
fn is_first(rt: &impl Abort, edition: Edition, text: &str, fault: Option<SlotFault>) -> bool {
    let outline = scan(text.as_bytes()).expect(rt, "a tree");
    check_slots(edition, &outline).err() == fault
}

/// Texts of nodes that both editions have.
const SHARED: [(&str, Option<SlotFault>); 4] = [
    (
        r#"VERTCRS["H",VDATUM["D"],CS[vertical,1],AXIS["height (H)",up],LENGTHUNIT["metre",1],ID["X",7]]"#,
        None,
    ),
    (
        r#"COMPOUNDCRS["C",GEOGCRS["G",DATUM["D",ELLIPSOID["S",6371000,0]],CS[ellipsoidal,2],AXIS["(Lat)",north],AXIS["(Lon)",east],ANGLEUNIT["degree",0.0174532925199433]],VERTCRS["H",VDATUM["D"],CS[vertical,1],AXIS["height (H)",up],LENGTHUNIT["metre",1]],ID["X",9]]"#,
        None,
    ),
    (
        r#"VERTCRS["H",ID["X",7],VDATUM["D"],CS[vertical,1]]"#,
        Some(SlotFault::NotHere(12)),
    ),
    (
        r#"VERTCRS["H",VDATUM["D"],CS[vertical,1]]"#,
        Some(SlotFault::Missing(SlotName::Axis, 38)),
    ),
];

#[test]
fn both_editions_judge_shared_nodes_alike(rt: HostRuntime) {
    for (text, fault) in SHARED {
        assert!(rt; is_first(&rt, Edition::First, text, fault));
        assert!(rt; is_first(&rt, Edition::Second, text, fault));
    }
}

/// Texts with additions of the second edition: their faults in the first edition, and in the second.
const ADDED: [(&str, SlotFault, Option<SlotFault>); 5] = [
    (
        r#"VERTCRS["H",VDATUM["D"],CS[vertical,1],AXIS["height (H)",up],LENGTHUNIT["metre",1],GEOIDMODEL["M"],ID["X",7]]"#,
        SlotFault::NotHere(83),
        None,
    ),
    (
        r#"VERTCRS["H",VDATUM["D"],CS[vertical,1],AXIS["height (H)",up],LENGTHUNIT["metre",1],GEOIDMODEL["M"],GEOIDMODEL["N"],ID["X",7]]"#,
        SlotFault::NotHere(83),
        None,
    ),
    (
        r#"VERTCRS["H",VDATUM["D"],CS[vertical,1],AXIS["height (H)",up],GEOIDMODEL["M"],LENGTHUNIT["metre",1],ID["X",7]]"#,
        SlotFault::NotHere(61),
        Some(SlotFault::NotHere(77)),
    ),
    (
        r#"VERTCRS["H",VDATUM["D"],CS[vertical,1],AXIS["height (H)",up],LENGTHUNIT["metre",1],USAGE[SCOPE["s"],VERTICALEXTENT[-10,20,LENGTHUNIT["metre",1]]],ID["X",7]]"#,
        SlotFault::NotHere(100),
        None,
    ),
    (
        r#"VERTCRS["H",VDATUM["D"],CS[vertical,1],AXIS["height (H)",up],LENGTHUNIT["metre",1],USAGE[SCOPE["s"],VERTICALEXTENT[-10]],ID["X",7]]"#,
        SlotFault::NotHere(100),
        Some(SlotFault::Missing(SlotName::High, 118)),
    ),
];

#[test]
fn the_second_edition_takes_geoid_models_and_vertical_extents(rt: HostRuntime) {
    for (text, first, second) in ADDED {
        assert!(rt; is_first(&rt, Edition::First, text, Some(first)));
        assert!(rt; is_first(&rt, Edition::Second, text, second));
    }
}
