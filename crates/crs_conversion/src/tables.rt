//! Methods of EPSG's registry: code; name; codes of the parameters that all of its conversions have.

/// The methods.
pub const METHODS: &[u8] = b"1024;Popular Visualisation Pseudo Mercator;8801,8802,8806,8807
1027;Lambert Azimuthal Equal Area (Spherical);8801,8802,8806,8807
1028;Equidistant Cylindrical;8802,8806,8807,8823
1029;Equidistant Cylindrical (Spherical);8802,8806,8807,8823
1041;Krovak (North Orientated);1036,8806,8807,8811,8818,8819,8833
1042;Krovak Modified;1036,8806,8807,8811,8818,8819,8833
1043;Krovak Modified (North Orientated);1036,8806,8807,8811,8818,8819,8833
1051;Lambert Conic Conformal (2SP Michigan);1038,8821,8822,8823,8824,8826,8827
1052;Colombia Urban;1039,8801,8802,8806,8807
1078;Equal Earth;8802,8806,8807
1111;Transverse Mercator 3D;8801,8802,8805,8806,8807
9801;Lambert Conic Conformal (1SP);8801,8802,8805,8806,8807
9802;Lambert Conic Conformal (2SP);8821,8822,8823,8824,8826,8827
9803;Lambert Conic Conformal (2SP Belgium);8821,8822,8823,8824,8826,8827
9804;Mercator (variant A);8801,8802,8805,8806,8807
9805;Mercator (variant B);8802,8806,8807,8823
9806;Cassini-Soldner;8801,8802,8806,8807
9807;Transverse Mercator;8801,8802,8805,8806,8807
9808;Transverse Mercator (South Orientated);8801,8802,8805,8806,8807
9809;Oblique Stereographic;8801,8802,8805,8806,8807
9810;Polar Stereographic (variant A);8801,8802,8805,8806,8807
9811;New Zealand Map Grid;8801,8802,8806,8807
9812;Hotine Oblique Mercator (variant A);8806,8807,8811,8812,8813,8814,8815
9813;Laborde Oblique Mercator;8806,8807,8811,8812,8813,8815
9815;Hotine Oblique Mercator (variant B);8811,8812,8813,8814,8815,8816,8817
9816;Tunisia Mining Grid;8821,8822,8826,8827
9817;Lambert Conic Near-Conformal;8801,8802,8805,8806,8807
9818;American Polyconic;8801,8802,8806,8807
9819;Krovak;1036,8806,8807,8811,8818,8819,8833
9820;Lambert Azimuthal Equal Area;8801,8802,8806,8807
9821;Lambert Azimuthal Equal Area (Spherical);8806,8807,8828,8829
9822;Albers Equal Area;8821,8822,8823,8824,8826,8827
9823;Equidistant Cylindrical (Spherical);8801,8802,8806,8807
9824;Transverse Mercator Zoned Grid System;8801,8805,8806,8807,8830,8831
9826;Lambert Conic Conformal (West Orientated);8801,8802,8805,8806,8807
9827;Bonne;8801,8802,8806,8807
9828;Bonne (South Orientated);8801,8802,8806,8807
9829;Polar Stereographic (variant B);8806,8807,8832,8833
9830;Polar Stereographic (variant C);8826,8827,8832,8833
9831;Guam Projection;8801,8802,8806,8807
9832;Modified Azimuthal Equidistant;8801,8802,8806,8807
9833;Hyperbolic Cassini-Soldner;8801,8802,8806,8807
9834;Lambert Cylindrical Equal Area (Spherical);8802,8806,8807,8823
9835;Lambert Cylindrical Equal Area;8802,8806,8807,8823
9836;Geocentric/topocentric conversions;8837,8838,8839
9837;Geographic/topocentric conversions;8834,8835,8836
9838;Vertical Perspective;8834,8835,8836,8840
9840;Orthographic;8801,8802,8806,8807
9841;Mercator (1SP) (Spherical);8801,8802,8805,8806,8807
9842;Equidistant Cylindrical;8801,8806,8807,8822";

/// The parameters: code; name, and the second names that people write.
pub const PARAMETERS: &[u8] = b"1036;Co-latitude of cone axis
1038;Ellipsoid scaling factor
1039;Projection plane origin height
8801;Latitude of natural origin,Latitude of origin
8802;Longitude of natural origin,Central meridian
8805;Scale factor at natural origin,Scale factor
8806;False easting
8807;False northing
8811;Latitude of projection centre
8812;Longitude of projection centre
8813;Azimuth of initial line
8814;Angle from Rectified to Skew Grid
8815;Scale factor on initial line
8816;Easting at projection centre
8817;Northing at projection centre
8818;Latitude of pseudo standard parallel
8819;Scale factor on pseudo standard parallel
8821;Latitude of false origin
8822;Longitude of false origin
8823;Latitude of 1st standard parallel,Standard parallel 1
8824;Latitude of 2nd standard parallel,Standard parallel 2
8826;Easting at false origin
8827;Northing at false origin
8828;Spherical latitude of origin
8829;Spherical longitude of origin
8830;Initial longitude
8831;Zone width
8832;Latitude of standard parallel
8833;Longitude of origin
8834;Latitude of topocentric origin
8835;Longitude of topocentric origin
8836;Ellipsoidal height of topocentric origin
8837;Geocentric X of topocentric origin
8838;Geocentric Y of topocentric origin
8839;Geocentric Z of topocentric origin
8840;Viewpoint height";
