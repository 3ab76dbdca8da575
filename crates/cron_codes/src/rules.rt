//! The one table of codes.

use cron_findings::Rule;

/// Each code with its title and what helps, once. The first ones are of refused texts and lines, the
/// others of warnings.
pub const RULES: [Rule<'static>; 58] = [
    Rule {
        code: "expression-unread",
        title: "An expression can't be read",
        help: "Write six fields, or seven: seconds, minutes, hours, days of the month, months, days of the week, and years.",
    },
    Rule {
        code: "name-unknown",
        title: "A name is none of the field's",
        help: "Months and days of the week have names. Write them in English.",
    },
    Rule {
        code: "number-outside",
        title: "A number is not one of the field's",
        help: "Write a number of the field. The message tells what its numbers are, or which bound this one passes.",
    },
    Rule {
        code: "number-long",
        title: "A number has more than nine digits",
        help: "Write a number of the field.",
    },
    Rule {
        code: "number-wanted",
        title: "A text stands where a number is wanted",
        help: "Write a number, or a name of three letters for a month or a day of the week.",
    },
    Rule {
        code: "item-missing",
        title: "A number or an item is missing",
        help: "Write an item on both sides of a comma, and a number on both sides of a dash.",
    },
    Rule {
        code: "item-trailing",
        title: "Something behind an item is ignored",
        help: "Remove what follows: not every cron takes the item.",
    },
    Rule {
        code: "range-backward",
        title: "A range goes from a greater number to a lesser one, or out of the field",
        help: "Exchange the numbers, write two ranges with a comma between them, or end the range within the field.",
    },
    Rule {
        code: "range-mixed",
        title: "A range has a name and a number",
        help: "Write two numbers or two names.",
    },
    Rule {
        code: "step-zero",
        title: "A step is 0",
        help: "Write a step of 1 or more.",
    },
    Rule {
        code: "step-outside",
        title: "A step is none of the field",
        help: "Write a step of 1 or more that the field has room for.",
    },
    Rule {
        code: "step-wanted",
        title: "A step is missing, or is no number",
        help: "Write a number behind the slash.",
    },
    Rule {
        code: "step-alone",
        title: "A step follows a lone number",
        help: "Write a star or a range in front of the slash.",
    },
    Rule {
        code: "step-named",
        title: "A step follows a name",
        help: "Write the step behind a number, a star or a range.",
    },
    Rule {
        code: "field-missing",
        title: "A field is missing",
        help: "Write all fields. The message names the first that is missing.",
    },
    Rule {
        code: "field-sixth",
        title: "A field follows the last one",
        help: "A crontab's expression has neither seconds nor years. Remove the field.",
    },
    Rule {
        code: "field-eighth",
        title: "An eighth field stands behind seven",
        help: "Remove the field.",
    },
    Rule {
        code: "days-none",
        title: "Both fields of days are question marks",
        help: "Write one of them as a star.",
    },
    Rule {
        code: "days-both",
        title: "Neither field of days is a question mark",
        help: "Quartz asks for a question mark in the field of days that doesn't count.",
    },
    Rule {
        code: "days-form",
        title: "A form of days can't be read",
        help: "Write L, L-3, LW or L-3W.",
    },
    Rule {
        code: "nickname-unknown",
        title: "A nickname is unknown",
        help: "Write @hourly, @daily, @weekly, @monthly, @yearly or @reboot, or five fields.",
    },
    Rule {
        code: "nickname-capital",
        title: "A nickname has capital letters",
        help: "Write it in small letters.",
    },
    Rule {
        code: "nickname-trailing",
        title: "A word stands behind a nickname",
        help: "A nickname stands for all fields. Remove the word.",
    },
    Rule {
        code: "line-second",
        title: "A line break stands within the text",
        help: "Write an expression or an entry in one line.",
    },
    Rule {
        code: "line-nul",
        title: "A line has a NUL",
        help: "Remove the byte.",
    },
    Rule {
        code: "line-return",
        title: "A line is a carriage return alone",
        help: "Remove it: another system ends lines with it.",
    },
    Rule {
        code: "file-mark",
        title: "A file begins with a byte order mark",
        help: "Write the file as UTF-8 without a mark.",
    },
    Rule {
        code: "value-missing",
        title: "A setting has no value",
        help: "Write \"\" for an empty value.",
    },
    Rule {
        code: "quote-open",
        title: "A quotation mark is not closed",
        help: "Close it at the end of the value.",
    },
    Rule {
        code: "quote-trailing",
        title: "Something stands behind a quoted value",
        help: "Put the whole value between the quotation marks.",
    },
    Rule {
        code: "byte-strange",
        title: "The fields have a byte that is no printable ASCII",
        help: "Write the fields in ASCII. A no-break space is often the cause.",
    },
    Rule {
        code: "user-missing",
        title: "An entry has no user",
        help: "An entry of a system crontab names a user in front of the command.",
    },
    Rule {
        code: "command-missing",
        title: "An entry has no command",
        help: "Write what is to run behind the fields.",
    },
    Rule {
        code: "zone-unknown",
        title: "CRON_TZ names no zone",
        help: "Write a name of the time zone database, as Europe/Berlin.",
    },
    Rule {
        code: "fires-never",
        title: "An expression never fires",
        help: "Look at the days and the months: no date has them.",
    },
    Rule {
        code: "range-empty",
        title: "A range has no number",
        help: "Write the lesser number first, or two ranges with a comma between them.",
    },
    Rule {
        code: "step-past-end",
        title: "A step is longer than its range",
        help: "Only the first number is left. Write that number alone if it is meant.",
    },
    Rule {
        code: "step-uneven",
        title: "A step doesn't divide its field",
        help: "The last step of each round is shorter. Write numbers if that isn't meant.",
    },
    Rule {
        code: "days-both-needed",
        title: "Both kinds of day must match",
        help: "A field of days that begins with a star makes it so. Write 1-31/2 for */2 if either is to match.",
    },
    Rule {
        code: "days-left-out",
        title: "Some months lack a day that is named",
        help: "Those months are passed over. Write a day that each month has if that isn't meant.",
    },
    Rule {
        code: "days-either",
        title: "A match of one kind of day suffices",
        help: "Write a star for one kind of day, and test it in the command, if both are to match.",
    },
    Rule {
        code: "minute-star",
        title: "An entry fires each minute of an hour",
        help: "Write 0 in place of the star to fire once an hour.",
    },
    Rule {
        code: "command-sixth",
        title: "A command begins with a sixth field",
        help: "A crontab's expression has five fields. Remove the seconds.",
    },
    Rule {
        code: "command-seventh",
        title: "A command begins with a sixth and a seventh field",
        help: "A crontab's expression has five fields. Remove the seconds and the years.",
    },
    Rule {
        code: "zone-ignored",
        title: "Debian's cron ignores CRON_TZ",
        help: "Write the times of the machine's zone for Debian's cron.",
    },
    Rule {
        code: "command-long",
        title: "A command is too long for Debian's cron",
        help: "Move it into a script.",
    },
    Rule {
        code: "return-at-end",
        title: "A command ends in a carriage return",
        help: "Remove it: another system ends lines with it.",
    },
    Rule {
        code: "backslashes-two",
        title: "A command has two backslashes in a row",
        help: "Debian's cron leaves one of them. Move the command into a script.",
    },
    Rule {
        code: "dash-in-front",
        title: "A command begins with a dash",
        help: "cronie takes it as an option. Write a path in front.",
    },
    Rule {
        code: "percent-sign",
        title: "A percent sign ends a command",
        help: "Write \\% for a percent sign. What follows a bare one is the command's input.",
    },
    Rule {
        code: "value-shortened",
        title: "Debian's cron shortens a value",
        help: "Write the value without outer white space and further quotation marks.",
    },
    Rule {
        code: "setting-long",
        title: "A setting is too long for Debian's cron",
        help: "Set the value in a script.",
    },
    Rule {
        code: "lines-many",
        title: "A file has too many lines for Debian's cron",
        help: "Split the file.",
    },
    Rule {
        code: "feed-missing",
        title: "No line feed ends the last line",
        help: "End the line with a line feed.",
    },
    Rule {
        code: "crontab-system",
        title: "A crontab seems to be the system's",
        help: "Check it with --system, since its entries name a user.",
    },
    Rule {
        code: "day-changed",
        title: "The clock skips a time of an entry, or shows it twice",
        help: "Write a time that no change of the clock touches.",
    },
    Rule {
        code: "year-without-fire",
        title: "An entry doesn't fire within 366 days",
        help: "Look at its days and months.",
    },
    Rule {
        code: "entry-twin",
        title: "An entry stands twice",
        help: "Remove one of the two.",
    },
];
