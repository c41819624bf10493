// The greatest numbers of fields.

/// The last second of a day.
pub const LAST_SECOND: u32 = 86_399;

/// The greatest number of a vehicle or of a request.
pub const LAST_NAME: u32 = 2_147_483_647;

/// The greatest speed, in miles per hour.
pub const TOP_SPEED: u32 = 100;

/// The last expressway.
pub const LAST_XWAY: u32 = 255;

/// The last lane, by which vehicles leave.
pub const LAST_LANE: u32 = 4;

/// The westbound direction.
pub const LAST_DIRECTION: u32 = 1;

/// The last segment of a road.
pub const LAST_SEGMENT: u32 = 99;

/// The last position on a road, in feet.
pub const LAST_POSITION: u32 = 527_999;
