//! The constants of GeoJSON, SQL and DOT.

pub const COLLECTION_START: &[u8] = b"{\"type\":\"FeatureCollection\",\"features\":[";

pub const COLLECTION_END: &[u8] = b"\n]}\n";

pub const FEATURE_START: &[u8] = b"\n{\"type\":\"Feature\",\"geometry\":{\"type\":";

pub const POLYGON: &[u8] = b"\"Polygon\",\"coordinates\":";

pub const POLYGONS: &[u8] = b"\"MultiPolygon\",\"coordinates\":[";

pub const BEFORE_ENTRY: &[u8] = b"},\"properties\":{\"entry\":";

pub const BEFORE_AUTHORITY: &[u8] = b",\"authority\":";

pub const BEFORE_CODE: &[u8] = b",\"code\":";

pub const BEFORE_NAME: &[u8] = b",\"name\":";

pub const BEFORE_STATUS: &[u8] = b",\"status\":";

pub const BEFORE_SCOPE: &[u8] = b",\"scope\":";

pub const BEFORE_AREA: &[u8] = b",\"area\":";

pub const FEATURE_END: &[u8] = b"}}";

pub const NULL: &[u8] = b"null";

/// The meridian at which a box is cut, as the east end of one part and the west end of the other.
pub const EAST_END: &[u8] = b"180";

pub const WEST_END: &[u8] = b"-180";

pub const SQL_START: &[u8] = b"BEGIN;\n";

pub const SQL_END: &[u8] = b"COMMIT;\n";

pub const GEODETIC: &[u8] =
    b"INSERT INTO geodetic_crs(auth_name,code,name,type,text_definition,deprecated) VALUES(";

pub const PROJECTED: &[u8] =
    b"INSERT INTO projected_crs(auth_name,code,name,text_definition,deprecated) VALUES(";

pub const GEOGRAPHIC_2D: &[u8] = b",'geographic 2D',";

pub const GEOGRAPHIC_3D: &[u8] = b",'geographic 3D',";

pub const GEOCENTRIC: &[u8] = b",'geocentric',";

pub const OTHER: &[u8] = b",'other',";

pub const COMMA: &[u8] = b",";

pub const ROW_END: &[u8] = b",0);\n";

pub const LEFT_OUT: &[u8] = b"-- left out: ";

/// The authority of rows that belong to the rows of one entry. Their code is its id.
pub const OWNER: &[u8] = b"crsreg";

pub const UNIT: &[u8] =
    b"INSERT INTO unit_of_measure(auth_name,code,name,type,conv_factor,deprecated) VALUES('crsreg',";

pub const LENGTH: &[u8] = b",'length',";

pub const SYSTEM: &[u8] =
    b"INSERT INTO coordinate_system(auth_name,code,type,dimension) VALUES('crsreg',";

pub const SYSTEM_END: &[u8] = b",'vertical',1);\n";

pub const AXIS: &[u8] =
    b"INSERT INTO axis(auth_name,code,name,abbrev,orientation,coordinate_system_auth_name,coordinate_system_code,coordinate_system_order,uom_auth_name,uom_code) VALUES('crsreg',";

/// The names of axes that have only a letter.
pub const HEIGHT: &[u8] = b"Gravity-related height";

pub const DEPTH: &[u8] = b"Depth";

pub const OF_OWNER: &[u8] = b",'crsreg',";

pub const FIRST_OF_OWNER: &[u8] = b",1,'crsreg',";

pub const KEY_END: &[u8] = b");\n";

pub const FRAME: &[u8] =
    b"INSERT INTO vertical_datum(auth_name,code,name,deprecated) VALUES('crsreg',";

pub const VERTICAL: &[u8] =
    b"INSERT INTO vertical_crs(auth_name,code,name,coordinate_system_auth_name,coordinate_system_code,datum_auth_name,datum_code,deprecated) VALUES(";

pub const COMPOUND: &[u8] =
    b"INSERT INTO compound_crs(auth_name,code,name,horiz_crs_auth_name,horiz_crs_code,vertical_crs_auth_name,vertical_crs_code,deprecated) VALUES(";

/// Before the code of a horizontal component, and after it.
pub const BY_OWNER: &[u8] = b"'crsreg',";

pub const HORIZONTAL: &[u8] = b"||' horizontal',";

pub const HORIZONTAL_AND_OWNER: &[u8] = b"||' horizontal','crsreg',";

/// Parts of the graph that are not linked stand in rows and columns, so that the picture of a large register is not long and narrow.
pub const GRAPH_START: &[u8] =
    b"digraph register {\nrankdir=LR;\npack=true;\npackmode=array;\nnode [shape=box,style=filled];\n";

pub const GRAPH_END: &[u8] = b"}\n";

pub const NODE_START: &[u8] = b"\"";

pub const LABEL: &[u8] = b"\" [label=\"";

pub const BEFORE_CODE_IN_LABEL: &[u8] = b":";

pub const BEFORE_NAME_IN_LABEL: &[u8] = b"\\n";

pub const BEFORE_COLOR: &[u8] = b"\",fillcolor=";

pub const NODE_END: &[u8] = b"];\n";

pub const CAPTION_END: &[u8] = b"\"];\n";

pub const ARROW: &[u8] = b"\" -> \"";

pub const EDGE_END: &[u8] = b"\";\n";

pub const RIVALS_END: &[u8] = b"\" [dir=none,color=red];\n";

pub const VALID_COLOR: &[u8] = b"palegreen";

pub const SUPERSEDED_COLOR: &[u8] = b"khaki";

pub const RETIRED_COLOR: &[u8] = b"lightgray";
