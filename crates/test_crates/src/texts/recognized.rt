//! Canonical texts that are recognized. No clause says that one is.

use wkt_canonical::{is_canonical, recognize};

/// A vertical system, canonical.
const HEIGHT: &[u8] =
    b"VERTCRS[\"H\",VDATUM[\"D\"],CS[vertical,1],AXIS[\"height (H)\",up],LENGTHUNIT[\"metre\",1],ID[\"X\",7]]";

/// A compound of a geographic and a vertical system, canonical.
const COMPOUND: &[u8] =
    b"COMPOUNDCRS[\"C\",GEOGCRS[\"G\",DATUM[\"D\",ELLIPSOID[\"S\",6371000,0]],CS[ellipsoidal,2],AXIS[\"(Lat)\",north],AXIS[\"(Lon)\",east],ANGLEUNIT[\"degree\",0.0174532925199433]],VERTCRS[\"H\",VDATUM[\"D\"],CS[vertical,1],AXIS[\"height (H)\",up],LENGTHUNIT[\"metre\",1]],ID[\"X\",9]]";

/// A projected system on polar axes, canonical.
const POLAR: &[u8] =
    b"PROJCRS[\"Polar example\",BASEGEOGCRS[\"Example\",DATUM[\"Example frame\",ELLIPSOID[\"GRS 1980\",6378137,298.257222101]]],CONVERSION[\"Polar example\",METHOD[\"Polar Stereographic (variant A)\"]],CS[Cartesian,2],AXIS[\"(E)\",south,MERIDIAN[90,ANGLEUNIT[\"degree\",0.0174532925199433]],ORDER[1]],AXIS[\"(N)\",south,MERIDIAN[180,ANGLEUNIT[\"degree\",0.0174532925199433]],ORDER[2]],LENGTHUNIT[\"metre\",1],ID[\"X\",\"polar\",1,URI[\"urn:example:polar\"]]]";

/// A projected system on an ensemble, with every node that texts of public lists have, canonical.
const LISTED: &[u8] =
    b"PROJCRS[\"WGS 84 / TM 6 NE\",BASEGEOGCRS[\"WGS 84\",ENSEMBLE[\"World Geodetic System 1984 ensemble\",MEMBER[\"World Geodetic System 1984 (Transit)\",ID[\"EPSG\",1166]],MEMBER[\"World Geodetic System 1984 (G2139)\"],ELLIPSOID[\"WGS 84\",6378137,298.257223563,LENGTHUNIT[\"metre\",1]],ENSEMBLEACCURACY[2]],PRIMEM[\"Greenwich\",0,ANGLEUNIT[\"degree\",0.0174532925199433]],ID[\"EPSG\",4326]],CONVERSION[\"TM 6 NE\",METHOD[\"Transverse Mercator\",ID[\"EPSG\",9807]],PARAMETER[\"Longitude of natural origin\",6,ANGLEUNIT[\"degree\",0.0174532925199433],ID[\"EPSG\",8802]],PARAMETER[\"Scale factor at natural origin\",0.9996,SCALEUNIT[\"unity\",1],ID[\"EPSG\",8805]]],CS[Cartesian,2],AXIS[\"(E)\",east,ORDER[1],LENGTHUNIT[\"metre\",1]],AXIS[\"(N)\",north,ORDER[2],LENGTHUNIT[\"metre\",1]],USAGE[SCOPE[\"Oil and gas exploration and production.\"],AREA[\"Nigeria - offshore.\"],BBOX[-1.92,2.66,6.38,8.49]],ID[\"EPSG\",2311,CITATION[\"List\"],URI[\"urn:example:2311\"]],REMARK[\"C\xc3\xb4te\"]]";

/// The same as the first, spelled with alternate keywords, other delimiters and another numeral.
const SPELLED: &[u8] =
    b"verticalcrs( \"H\" , VRF[\"D\"],cs(Vertical,1),\n AXIS[\"height (H)\",UP],LENGTHUNIT[\"metre\",1.0],ID[\"X\",7.0e0])";

/// A geocentric system.
const GEOCENTRIC: &[u8] =
    b"GEODCRS[\"G\",DATUM[\"D\",ELLIPSOID[\"S\",6371000,0]],PRIMEM[\"P\",-0.5],CS[Cartesian,3],AXIS[\"(X)\",geocentricX,LENGTHUNIT[\"metre\",1]],AXIS[\"(Y)\",geocentricY,LENGTHUNIT[\"metre\",1]],AXIS[\"(Z)\",geocentricZ,LENGTHUNIT[\"metre\",1]],ID[\"X\",10]]";

const PLANE_AND_HEIGHT: &[u8] =
    b"COMPOUNDCRS[\"C\",GEOGCRS[\"G\",DATUM[\"D\",ELLIPSOID[\"S\",6371000,0]],CS[ellipsoidal,2],AXIS[\"(Lat)\",north,ANGLEUNIT[\"degree\",0.0174532925199433]],AXIS[\"(Lon)\",east,ANGLEUNIT[\"degree\",0.0174532925199433]]],VERTCRS[\"H\",VDATUM[\"D\",ANCHOR[\"A\"]],CS[vertical,1],AXIS[\"height (H)\",up,LENGTHUNIT[\"metre\",1]]],ID[\"X\",9]]";

/// A vertical system with geoid models, and with vertical extents in its usages.
const MODELLED: &[u8] =
    b"VERTCRS[\"H\",VDATUM[\"D\"],CS[vertical,1],AXIS[\"height (H)\",up],LENGTHUNIT[\"metre\",1],GEOIDMODEL[\"M\",ID[\"X\",8]],GEOIDMODEL[\"N\"],USAGE[SCOPE[\"s\"],AREA[\"A\"],BBOX[-1.92,2.66,6.38,8.49],VERTICALEXTENT[-10,20,LENGTHUNIT[\"metre\",1]]],USAGE[SCOPE[\"t\"],VERTICALEXTENT[-0.5,2]],ID[\"X\",7]]";

/// A compound whose own usage has a vertical extent.
const EXTENDED: &[u8] =
    b"COMPOUNDCRS[\"C\",GEOGCRS[\"G\",DATUM[\"D\",ELLIPSOID[\"S\",6371000,0]],CS[ellipsoidal,2],AXIS[\"(Lat)\",north],AXIS[\"(Lon)\",east],ANGLEUNIT[\"degree\",0.0174532925199433]],VERTCRS[\"H\",VDATUM[\"D\"],CS[vertical,1],AXIS[\"height (H)\",up],LENGTHUNIT[\"metre\",1]],USAGE[SCOPE[\"s\"],VERTICALEXTENT[0,9,UNIT[\"metre\",1]]],ID[\"X\",9]]";

#[test]
fn canonical_texts_are_seen(rt: HostRuntime) {
    for text in [
        HEIGHT,
        COMPOUND,
        POLAR,
        LISTED,
        GEOCENTRIC,
        PLANE_AND_HEIGHT,
        MODELLED,
        EXTENDED,
    ] {
        assert!(rt; is_canonical(text));
    }
    assert!(rt; !is_canonical(SPELLED));
}

#[test]
fn a_name_and_an_identifier_are_seen(rt: HostRuntime) {
    let seen = recognize(COMPOUND).expect(&rt, "a canonical text");
    assert!(rt; seen.name == b"C".as_slice());
    let identifier = seen.identifier.expect(&rt, "an identifier");
    assert!(rt; identifier.authority == b"X".as_slice());
    assert!(rt; identifier.code == b"9".as_slice());
}
