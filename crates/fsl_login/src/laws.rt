//! Laws of users files.
ghost use Rattle.fsl_login.specs.OneReading.{UsersReadOneWay, FrontsTell};

/// Says that a file is users, or has one first bad line, and not both. This is a law and runs no code.
pub fn users_read_one_way()
    ensures { UsersReadOneWay }
{}

/// Says that a front of more than 2^20 bytes of a file has the first bad line of the whole. This is a law and runs no code.
pub fn fronts_tell()
    ensures { FrontsTell }
{}
