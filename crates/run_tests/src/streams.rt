//! The requests of a whole run, and their replies.

/// A station, its rating, the period of that, and three readings, by which two days become pending.
pub const EDITS: &[u8] =
    b"POST /edits HTTP/1.1\r\nContent-Length: 161\r\n\r\n{\"kind\":\"AddStation\",\"by\":\"AB\",\"ref\":\"a1\",\"site\":\"01646500\",\"name\":\"POTOMAC\",\"zone\":\"-05:00\",\"gap\":720,\"stage_array\":\"9999999992\",\"discharge_array\":\"0222233332\"}POST /edits HTTP/1.1\r\nContent-Length: 107\r\n\r\n{\"kind\":\"AddRating\",\"by\":\"AB\",\"ref\":\"a2\",\"site\":\"01646500\",\"rating\":1,\"rows\":[[\"1.00\",\"10\"],[\"2.00\",\"30\"]]}POST /edits HTTP/1.1\r\nContent-Length: 113\r\n\r\n{\"kind\":\"PutPeriod\",\"by\":\"AB\",\"ref\":\"a3\",\"site\":\"01646500\",\"rating\":1,\"from\":\"2023-01-01T00:00:00Z\",\"until\":null}POST /edits HTTP/1.1\r\nContent-Length: 170\r\n\r\n{\"kind\":\"PutReadings\",\"by\":\"AB\",\"ref\":\"a4\",\"site\":\"01646500\",\"readings\":[[\"2024-01-05T05:00:00Z\",\"1.00\"],[\"2024-01-05T17:00:00Z\",\"2.00\"],[\"2024-01-06T05:00:00Z\",\"1.00\"]]}";

/// The replies to these.
pub const ACCEPTED: &[u8] =
    b"HTTP/1.1 200 OK\r\nContent-Type: application/json\r\nContent-Length: 27\r\n\r\n{\"edit\":1,\"repeated\":false}HTTP/1.1 200 OK\r\nContent-Type: application/json\r\nContent-Length: 27\r\n\r\n{\"edit\":2,\"repeated\":false}HTTP/1.1 200 OK\r\nContent-Type: application/json\r\nContent-Length: 27\r\n\r\n{\"edit\":3,\"repeated\":false}HTTP/1.1 200 OK\r\nContent-Type: application/json\r\nContent-Length: 27\r\n\r\n{\"edit\":4,\"repeated\":false}";

/// The first of the pending days, turns, and that day once more.
pub const ASKS: &[u8] =
    b"GET /stations/01646500/days/2024-01-05 HTTP/1.1\r\n\r\nPOST /turns/10 HTTP/1.1\r\nContent-Length: 0\r\n\r\nGET /stations/01646500/days/2024-01-05 HTTP/1.1\r\n\r\n";

/// The replies to these behind those edits, in an office of one thread.
pub const ANSWERS: &[u8] =
    b"HTTP/1.1 200 OK\r\nContent-Type: application/json\r\nContent-Length: 48\r\n\r\n{\"answer\":\"pending\",\"edit\":4,\"status\":\"working\"}HTTP/1.1 200 OK\r\nContent-Type: application/json\r\nContent-Length: 27\r\n\r\n{\"pending\":0,\"published\":2}HTTP/1.1 200 OK\r\nContent-Type: application/json\r\nContent-Length: 157\r\n\r\n{\"answer\":\"computed\",\"covered\":86400,\"discharge\":\"20\",\"estimated\":false,\"length\":86400,\"max\":\"30.000000\",\"min\":\"10.000000\",\"stage\":\"1.50\",\"status\":\"working\"}";

/// A fourth reading, on the second of the pending days.
pub const LATER_EDIT: &[u8] =
    b"POST /edits HTTP/1.1\r\nContent-Length: 106\r\n\r\n{\"kind\":\"PutReadings\",\"by\":\"AB\",\"ref\":\"a5\",\"site\":\"01646500\",\"readings\":[[\"2024-01-06T17:00:00Z\",\"2.00\"]]}";

/// The reply to it behind those edits.
pub const LATER_ACCEPTED: &[u8] =
    b"HTTP/1.1 200 OK\r\nContent-Type: application/json\r\nContent-Length: 27\r\n\r\n{\"edit\":5,\"repeated\":false}";
