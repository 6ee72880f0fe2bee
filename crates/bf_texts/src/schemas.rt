//! JSON Schemas of the formats whose files are written by hand.

/// The JSON Schema of graph files.
pub const GRAPH: &str = r##"{
  "$schema": "https://json-schema.org/draft/2020-12/schema",
  "title": "Task graph of backfill",
  "description": "What tasks there are, what each waits for, the program of each, and the schedule whose data intervals they are run for.",
  "type": "object",
  "required": ["dag_id", "schedule", "tasks"],
  "additionalProperties": false,
  "properties": {
    "dag_id": {
      "description": "The graph's id, which stands at the head of its reports: 1 to 250 ASCII letters, digits, - . and _",
      "$ref": "#/$defs/id"
    },
    "schedule": {
      "description": "Five fields of cron (minute, hour, day of the month, month, day of the week), or @hourly, @daily, @weekly, @monthly, @quarterly or @yearly.",
      "type": "string",
      "examples": ["@daily", "0 6 * * mon-fri"]
    },
    "zone": {
      "description": "The zone of the schedule: UTC, an offset as +01:00, a POSIX rule as CET-1CEST,M3.5.0,M10.5.0/3, or file, which means the file of --zone-file.",
      "type": "string",
      "default": "UTC",
      "examples": ["UTC", "+01:00", "CET-1CEST,M3.5.0,M10.5.0/3", "file"]
    },
    "max_active_runs": {
      "description": "How many runs may be open at once: 1 to 4,096.",
      "type": "integer",
      "minimum": 1,
      "maximum": 4096,
      "default": 16
    },
    "pools": {
      "description": "The slots of each pool by its name: 1 to 1,000,000. Where default_pool isn't named, it is there with 128 slots.",
      "type": "object",
      "propertyNames": { "$ref": "#/$defs/id" },
      "additionalProperties": { "$ref": "#/$defs/slots" },
      "default": {}
    },
    "tasks": {
      "description": "The tasks, at most 2,000. Together they have at most 20,000 distinct edges.",
      "type": "array",
      "maxItems": 2000,
      "items": { "$ref": "#/$defs/task" }
    }
  },
  "$defs": {
    "id": {
      "type": "string",
      "pattern": "^[A-Za-z0-9._-]{1,250}(?![\\s\\S])"
    },
    "slots": {
      "type": "integer",
      "minimum": 1,
      "maximum": 1000000
    },
    "text": {
      "type": "string",
      "maxLength": 4096
    },
    "task": {
      "type": "object",
      "required": ["id"],
      "additionalProperties": false,
      "properties": {
        "id": {
          "description": "The task's id, which no other task of the file has: 1 to 250 ASCII letters, digits, - . and _",
          "$ref": "#/$defs/id"
        },
        "upstream": {
          "description": "The ids of the tasks that this one waits for. An id that stands twice is one edge.",
          "type": "array",
          "items": { "type": "string" },
          "default": []
        },
        "rule": {
          "description": "The trigger rule: how the upstreams have to end for this task to run.",
          "enum": [
            "all_success",
            "all_failed",
            "all_done",
            "all_skipped",
            "one_success",
            "one_failed",
            "one_done",
            "none_failed",
            "none_failed_min_one_success",
            "none_skipped",
            "always"
          ],
          "default": "all_success"
        },
        "kind": {
          "description": "program, or branch: what a branch pushes names the direct downstreams to follow.",
          "enum": ["program", "branch"],
          "default": "program"
        },
        "command": {
          "description": "The program and its words, started without a shell: at most 64 words, which pull from at most 16 distinct tasks. Without words nothing is started, and the task succeeds.",
          "type": "array",
          "maxItems": 64,
          "items": { "$ref": "#/$defs/word" },
          "default": []
        },
        "expand": {
          "description": "The id of a direct upstream: an instance is made for each item of the list that it pushes.",
          "type": "string"
        },
        "depends_on_past": {
          "description": "Whether this task waits for itself in the run before, and runs only where it succeeded or was skipped there.",
          "type": "boolean",
          "default": false
        },
        "retries": {
          "description": "How often a failed try is made again: 0 to 100.",
          "type": "integer",
          "minimum": 0,
          "maximum": 100,
          "default": 0
        },
        "retry_delay": {
          "description": "How many seconds a new try waits from the end of the one before it: 0 to 86,400.",
          "type": "integer",
          "minimum": 0,
          "maximum": 86400,
          "default": 0
        },
        "pool": {
          "description": "The pool whose slots a running try holds: one that the file names, or default_pool.",
          "type": "string",
          "default": "default_pool"
        },
        "pool_slots": {
          "description": "How many slots of its pool a running try holds: 1 to 1,000,000, and no more than the pool has.",
          "$ref": "#/$defs/slots",
          "default": 1
        },
        "priority_weight": {
          "description": "The task's own weight: 0 to 1,000,000. Of the instances that wait, the one of the greatest total weight begins.",
          "type": "integer",
          "minimum": 0,
          "maximum": 1000000,
          "default": 1
        },
        "weight_rule": {
          "description": "The total weight: downstream adds the weights of all descendants, upstream those of all ancestors, absolute none.",
          "enum": ["downstream", "upstream", "absolute"],
          "default": "downstream"
        }
      },
      "if": { "not": { "required": ["expand"] } },
      "then": {
        "properties": {
          "command": {
            "description": "A task without the key expand has no item.",
            "not": { "contains": { "type": "object", "required": ["item"] } }
          }
        }
      }
    },
    "word": {
      "description": "A text of at most 4,096 bytes, or an object with one key: context, pull or item.",
      "oneOf": [
        { "$ref": "#/$defs/text" },
        {
          "type": "object",
          "required": ["context"],
          "additionalProperties": false,
          "properties": {
            "context": {
              "description": "What the try is of: a moment of its data interval, an id, its map index (-1 where the task isn't expanded), or the number of the try, from 1.",
              "enum": [
                "logical_date",
                "data_interval_start",
                "data_interval_end",
                "dag_id",
                "task_id",
                "map_index",
                "try_number"
              ]
            }
          }
        },
        {
          "type": "object",
          "required": ["pull"],
          "additionalProperties": false,
          "properties": {
            "pull": {
              "description": "The id of a task: the word is what it pushed, or the list of what its instances pushed.",
              "$ref": "#/$defs/text"
            }
          }
        },
        {
          "type": "object",
          "required": ["item"],
          "additionalProperties": false,
          "properties": {
            "item": {
              "description": "The item of an expanded task's instance.",
              "const": true
            }
          }
        }
      ]
    }
  }
}
"##;

/// The JSON Schema of tables of answers.
pub const TABLE: &str = r##"{
  "$schema": "https://json-schema.org/draft/2020-12/schema",
  "title": "Table of answers of backfill",
  "description": "What tries answer in place of their programs. The first entry that matches a try answers it; where none does, it exits with 0 and pushes nothing.",
  "type": "array",
  "items": {
    "type": "object",
    "additionalProperties": false,
    "properties": {
      "task": {
        "description": "The task's id. Without it the entry matches every task.",
        "type": "string"
      },
      "index": {
        "description": "The map index, -1 where the task isn't expanded. Without it the entry matches every one.",
        "$ref": "#/$defs/number"
      },
      "run": {
        "description": "The logical date of the run, as 2024-01-31T06:00:00Z. Without it the entry matches every run.",
        "type": "string",
        "pattern": "^[0-9]{4}-(0[1-9]|1[0-2])-(0[1-9]|[12][0-9]|3[01])T([01][0-9]|2[0-3]):[0-5][0-9]:[0-5][0-9]Z(?![\\s\\S])"
      },
      "try": {
        "description": "The number of the try, from 1. Without it the entry matches every try.",
        "$ref": "#/$defs/number"
      },
      "status": {
        "description": "The exit code: 0 is success, 99 skipped, any other failed.",
        "type": "integer",
        "minimum": 0,
        "maximum": 255,
        "default": 0
      },
      "out": {
        "description": "The standard output, whose last line is the value that the task pushes.",
        "type": "string",
        "default": ""
      }
    }
  },
  "$defs": {
    "number": {
      "type": "integer",
      "minimum": -9223372036854775808,
      "maximum": 9223372036854775807
    }
  }
}
"##;
